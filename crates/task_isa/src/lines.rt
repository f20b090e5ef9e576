//! Where the parts of a program stand in its text.

use sqlite_items::Items;

/// The lines of a program's text, counted from 1: of its header, of each thread and task, and of each task's instructions.
#[derive(Drop)]
pub struct Lines {
    pub program: u32,
    pub threads: Items<u32>,
    pub tasks: Items<u32>,
    pub code: Items<Items<u32>>,
}
