//! Images of the earlier form of the words, and their change to today's.
#![tactic(auto)]

mod blocks;
mod failing;
mod held;
mod old_event;
mod old_slot;
mod origins;
mod queue;
mod queues;
mod renewing;
mod sources;
mod worn;

pub use failing::first_failing_old;
pub use old_event::OldEvent;
pub use old_slot::{OldSlot, read_old_slot};
pub use renewing::renew;
pub use worn::is_worn_old;
