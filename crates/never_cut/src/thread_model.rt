//! A thread of the never-cut kernel.

use ink_base::{Event, TaskId};
use sqlite_items::Items;

/// A thread: its state numbers; the task that its chain goes on with and the event that it serves, where a chain runs; the time of the
/// chain's first commit; the events of its queue that aren't released, whether the first of them is finished, and how many were
/// released; and how many services were served, trapped and expired.
#[derive(Drop)]
pub struct ThreadModel {
    pub state: Items<u32>,
    pub running: Option<TaskId>,
    pub event: Option<Event>,
    pub first: u64,
    pub held: Items<Event>,
    pub finished: bool,
    pub released: u64,
    pub served: u64,
    pub trapped: u64,
    pub expired: u64,
}
