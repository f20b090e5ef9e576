//! What a board has put out.

use crate::ids::ThreadId;

/// A committed output: the number of the commit that made it, the thread, and the value.
#[derive(Clone, Copy, Debug, PartialEq, Eq)]
pub struct Output {
    pub stamp: u64,
    pub thread: ThreadId,
    pub value: u32,
}
