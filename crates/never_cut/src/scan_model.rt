//! A scan of the never-cut kernel.

use ink_base::ThreadId;
use sqlite_items::Items;

/// A scan: its time in ticks, and the threads whose queues it found without an event.
#[derive(Drop)]
pub struct ScanModel {
    pub time: u64,
    pub looked: Items<ThreadId>,
}
