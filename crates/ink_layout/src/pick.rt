//! What a scan finds.

use ink_base::{Event, TaskId, ThreadId};

/// A thread and its pending event, with the words that the scan loaded on the way to it.
#[derive(Clone, Copy, Debug, PartialEq, Eq)]
pub struct Pick {
    pub thread: ThreadId,
    pub event: Event,
    /// The next task of the thread's running chain; none where the thread is idle, and the event isn't started.
    pub running: Option<TaskId>,
    /// The number of queue events that the thread has finished.
    pub position: u32,
    /// The scan's time in ticks, as its load of the clock found it.
    pub time: u64,
    /// The thread's commit word.
    pub commit_word: u64,
    /// The time in ticks of the running chain's first commit, where the thread expires.
    pub first: u64,
    /// For the event of a timer, its word: the deadline plus 1.
    pub due_word: u64,
    /// For the item of a pipe, how many items were taken before it.
    pub taken: u64,
}
