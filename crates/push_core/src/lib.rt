//! A source of readings: the words of a queue's slots, and the source as a machine that says its next access and takes the word
//! that the access found.
#![tactic(auto)]

mod phase;
mod point;
mod port;
mod pusher;
mod row;
mod slot;
mod stage;
mod steps;

pub use phase::Phase;
pub use point::Point;
pub use port::Port;
pub use pusher::Pusher;
pub use row::Row;
pub use slot::{Slot, empty, full, read_slot};
pub use stage::Stage;
