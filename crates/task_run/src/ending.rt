//! How a task ends.

ghost use Rattle.std.specs.Prelude.{◌≡◌, ◌<◌};
ghost use Rattle.fram_words.specs.Header as header;
ghost use Rattle.task_run.specs.Endings as endings;

use fram_words::Header;

/// How the task at hand ends its service or goes on, as far as is known; `Done` until the run shows otherwise.
#[derive(Clone, Copy)]
pub enum Ending {
    /// The chain goes on with the task of this number.
    Next { task: u32 },
    /// The service is over and counts as served.
    Done,
    /// The task's effects are thrown away, and the service counts as trapped.
    Trapped,
    /// No task runs, and the service counts as expired.
    Expired,
}

impl Ending {
    // 0 for idle, else 1 plus the task that the chain goes on with.
    pub(crate) fn next_word(self) -> u64
        ensures { result ≡ endings.next_by self }
    {
        match self {
            Ending::Next { task } => task as u64 + 1,
            _ => 0,
        }
    }

    // The header word that counts the services that end so.
    pub(crate) fn total_word(self) -> u32
        ensures total { result ≡ endings.total_word self }
        ensures header { result < header.words }
    {
        match self {
            Ending::Trapped => Header::Trapped.word(),
            Ending::Expired => Header::Expired.word(),
            _ => Header::Served.word(),
        }
    }
}
