//! The lists of a live board's record, put together from those of its sources.
#![tactic(auto)]

mod gathers;
mod laws;
mod lists;
mod puts;
mod room;
#[cfg(test)]
mod tests;

pub use gathers::{Gathered, gather};
pub use laws::{gathered_are_accounted, queues_are_accounted};
pub use lists::SourceLists;
pub use puts::{put_events, put_refusals};
pub use room::ListRoom;
