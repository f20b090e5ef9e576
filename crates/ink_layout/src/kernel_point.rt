//! What an access of the kernel means to the never-cut kernel.

use ink_base::ThreadId;

/// What an access of the kernel stands for.
#[derive(Clone, Copy, Debug, PartialEq, Eq)]
pub enum KernelPoint {
    /// Nothing that the journal records.
    Nothing,
    /// The load of the clock that begins a scan.
    Scan,
    /// The load of an empty slot, which shows that the idle thread's queue has no event to start.
    Look(ThreadId),
    /// The store of a thread's commit word.
    Commit(ThreadId),
    /// The store that empties the slot of a thread's finished event.
    Release(ThreadId),
}
