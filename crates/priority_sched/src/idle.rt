//! An idle thread, and a pipe that it reads.

use ink_base::PipeId;

/// An idle thread, as a scan finds it: its commit word, and the number of queue events that it has finished.
#[derive(Clone, Copy)]
pub struct Idle {
    pub commit_word: u64,
    pub position: u32,
}

/// An idle thread, a pipe that it reads, and how many of the pipe's items it has taken.
#[derive(Clone, Copy)]
pub struct Waiting {
    pub idle: Idle,
    pub pipe: PipeId,
    pub taken: u64,
}
