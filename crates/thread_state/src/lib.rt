//! The state of a thread in two copies, so that one store makes all writes of a task current.
#![tactic(auto)]

mod block;
mod buffer;
mod copying;
mod laws;
mod machine;

pub use block::{Block, committed_at};
pub use buffer::{Buffer, header_in, place_in};
pub use laws::two_copies;
pub use machine::BufferMachine;
