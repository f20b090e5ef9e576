//! Where a run begins that goes on from another.

use never_cut::Model;
use sqlite_items::Items;

/// The words that another run of the program left, by their addresses from 0, and the state of the never-cut kernel that is read off them.
#[derive(Drop)]
pub struct Start {
    pub words: Items<u64>,
    pub model: Model,
}
