//! Event pipes: what the counts of written and taken items tell, and where an item stands.
#![tactic(auto)]

mod ring;

pub use ring::{has_item, has_room, ring_at};
