//! A source of readings as an actor on the shared queues: the machine of its access table, its own word SRC, its seat, and its lists of
//! published and refused readings.
#![tactic(auto)]

mod access;
mod actor;
mod gate;
mod lists;

pub use actor::{SourceActor, SourceParts, Spent};
pub use gate::{Gate, NoGate};
pub use lists::{Declined, Published};
