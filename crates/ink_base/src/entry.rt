//! What a journal records.

use crate::ids::{SourceId, ThreadId};

/// An entry of the journal of a run.
#[derive(Clone, Copy)]
pub enum Entry {
    /// The source's next reading is in the queue of its thread.
    Push { source: SourceId },
    /// The source found the queue full at its next reading.
    Refuse { source: SourceId },
    /// The source gives up the refused reading.
    Skip { source: SourceId },
    /// So many ticks went by.
    Tick { by: u64 },
    /// The kernel begins a scan.
    Scan,
    /// The scan looked at the thread's queue and found no event.
    Look { thread: ThreadId },
    /// One task of the thread is current with all its effects.
    Commit { thread: ThreadId },
    /// The thread's finished event has left its queue.
    Release { thread: ThreadId },
}
