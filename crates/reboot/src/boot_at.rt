//! The rows of the access table of a boot.

use ink_base::SourceId;

/// The access that comes next for the thread at hand, with what was found for it.
#[derive(Clone, Copy)]
pub enum BootAt {
    /// Loads the commit word.
    Commit,
    /// Loads the stamp of the last commit.
    Stamp {
        commit_word: u64,
    },
    /// Loads the number of finished queue events.
    Finished {
        commit_word: u64,
    },
    /// Loads the slot of the event that was finished last, which has this position.
    Slot {
        position: u32,
    },
    /// Stores the acknowledgement of that event, which is still in its slot: its source, and the number of the source's accepted events
    /// before it modulo 64.
    Ack {
        position: u32,
        source: SourceId,
        count: u8,
    },
    /// Stores the empty slot of that event.
    Empty {
        position: u32,
    },
    /// Nothing: every thread was passed.
    Over,
}
