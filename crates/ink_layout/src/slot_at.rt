//! Which event of a queue an access serves.

use ink_base::ThreadId;

/// A thread's queue and the position of one of its events, counted from 0 over all events that the queue ever accepted.
#[derive(Clone, Copy, Debug, PartialEq, Eq)]
pub struct SlotAt {
    pub thread: ThreadId,
    pub position: u32,
}
