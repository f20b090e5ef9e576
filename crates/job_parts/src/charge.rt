//! The charges of a power trace.

use crate::item::Item;
use sqlite_items::Items;

/// The ticks that the board was dark before this charge, and the turns that it then powers, in order.
#[derive(Drop)]
pub struct Charge {
    pub off: u32,
    pub items: Items<Item>,
}
