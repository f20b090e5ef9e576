//! The words of the board by what they hold, and the accesses to them.

use ink_base::{PipeId, SourceId, TaskId, ThreadId};

/// One word of the board, by what it holds. Indices count from 0.
#[derive(Clone, Copy)]
pub enum Place {
    /// The code word at an offset of a task.
    Code {
        task: TaskId,
        offset: u32,
    },
    /// The word whose bits name the committed copy of each page of a thread.
    Commit {
        thread: ThreadId,
    },
    /// A word of one of the two copies of a page of a thread.
    Page {
        thread: ThreadId,
        page: u32,
        copy: u32,
        word: u32,
    },
    /// An output word of a thread.
    Log {
        thread: ThreadId,
        index: u32,
    },
    /// A word of a pipe's ring, which holds one item.
    Ring {
        pipe: PipeId,
        index: u32,
    },
    /// A queue's tail: how many events were published in it, or one fewer.
    Tail {
        thread: ThreadId,
    },
    /// A slot of a thread's queue.
    Slot {
        thread: ThreadId,
        index: u32,
    },
    /// A source's ACK, which the kernel stores before it releases an event of the source.
    Ack {
        source: SourceId,
    },
    /// The board's clock.
    Clock,
    /// A source's SRC: how many of its readings are accepted, and how many are settled.
    Src {
        source: SourceId,
    },
}

/// An access to the word of a place. `Plan::access` of ink_layout gives the access to its address.
#[derive(Clone, Copy)]
pub enum Step {
    /// Reads the word.
    Load(Place),
    /// Writes the word.
    Store(Place, u64),
    /// Writes `new` where the word is `expect`, and else leaves it.
    Exchange { place: Place, expect: u64, new: u64 },
    /// Adds to the word.
    Add { place: Place, by: u64 },
}
