//! What a task begins with.

use ink_base::Event;
use sqlite_items::Items;

/// What a task begins with: its thread's state, the event that is served, the scan's time in ticks, how many items each pipe has
/// room for, and how many outputs the thread's log has room for.
#[derive(Drop)]
pub struct TaskStart {
    pub state: Items<u32>,
    pub event: Event,
    pub time: u64,
    pub room: Items<u32>,
    pub log_room: u32,
}
