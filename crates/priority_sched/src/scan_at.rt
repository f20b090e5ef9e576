//! The rows of the access table of a scan.

use crate::chain::Chain;
use crate::idle::{Idle, Waiting};
use ink_base::{Event, Origin, PipeId, TaskId, TimerId};
use ink_layout::Pick;

/// The access that comes next for the thread at hand, with what was found for it.
#[derive(Clone, Copy)]
pub enum ScanAt {
    /// Loads the clock.
    Clock,
    /// Loads the commit word.
    Commit,
    /// Loads the word that tells the next task of a running chain.
    Running {
        commit_word: u64,
    },
    /// Loads the number of finished queue events; a chain goes on with the task, where one runs.
    Finished {
        commit_word: u64,
        running: Option<TaskId>,
    },
    /// Loads the origin of the running chain's event.
    Origin {
        chain: Chain,
    },
    /// Loads the value of that event.
    Value {
        chain: Chain,
        origin: Origin,
    },
    /// Loads the time of the chain's first commit, where the thread expires.
    First {
        chain: Chain,
        event: Event,
    },
    /// Loads the slot of the next event of an idle thread's queue, which has this position.
    Slot {
        commit_word: u64,
        position: u32,
    },
    /// Loads how many items the idle thread has taken from a pipe that it reads.
    Taken {
        idle: Idle,
        pipe: PipeId,
    },
    /// Loads the commit word of the pipe's writer.
    Writer {
        waiting: Waiting,
    },
    /// Loads how many items were written, from the copy that the writer's commit word names.
    Written {
        waiting: Waiting,
        commit_word: u64,
    },
    /// Loads the first item that isn't taken.
    Item {
        waiting: Waiting,
    },
    /// Loads the word of a timer of the idle thread, which no pipe gives an item.
    Timer {
        idle: Idle,
        timer: TimerId,
    },
    /// Nothing: this event was picked.
    Picked {
        pick: Pick,
    },
    /// Nothing: every thread was passed.
    Quiet,
}
