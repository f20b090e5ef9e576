//! What a kernel tells of itself.

use ink_base::ThreadId;

/// An entry of a kernel's account.
#[derive(Clone, Copy, Debug, PartialEq, Eq, Drop)]
pub enum KernelEntry {
    /// A scan began at this clock, in ticks.
    Scan { clock: u64 },
    /// The idle thread's queue had no event at the next position to be released, which is this one.
    Look { thread: ThreadId, position: u32 },
    /// The thread committed.
    Commit { thread: ThreadId },
    /// The first event of the thread's queue was released.
    Release { thread: ThreadId },
}
