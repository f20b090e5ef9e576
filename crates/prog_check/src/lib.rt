//! Which programs a board accepts, and the first fault of any other.
#![tactic(auto)]

mod accepted;
mod code;
mod demand;
mod devices;
mod judge;
mod limits;
mod meaning;
mod operands;
mod parts;
mod tasks;
mod threads;
mod try_copy;

pub use accepted::Accepted;
pub use judge::check;
pub use try_copy::{TryCopy, copies};
