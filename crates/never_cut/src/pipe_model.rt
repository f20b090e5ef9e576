//! A pipe of the never-cut kernel.

use sqlite_items::Items;

/// A pipe: the items that were sent and aren't taken, and how many were taken.
#[derive(Drop)]
pub struct PipeModel {
    pub items: Items<u32>,
    pub taken: u64,
}
