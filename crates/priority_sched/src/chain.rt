//! A running chain.

use ink_base::TaskId;

/// A running chain, as a scan finds it: the thread's commit word, the task that the chain goes on with, and the number of queue events
/// that the thread has finished.
#[derive(Clone, Copy)]
pub struct Chain {
    pub commit_word: u64,
    pub running: TaskId,
    pub position: u32,
}
