//! A live board: sources, clock and kernel as running threads.
#![tactic(auto)]

mod at_once;
mod begin;
mod finish;
mod parts;
mod running;
mod turns;
mod whole;

pub use parts::{LiveParts, LiveRoom, prepare_live};
pub use whole::live;
