//! Which phase follows.

ghost use Rattle.std.specs.Prelude.{◌≡◌};
ghost use Rattle.task_run.specs.Machine as machine;

use crate::ending::Ending;
use crate::phase::Phase;
use ink_base::{Origin, TaskId};

// Where a pick begins: the words of the event, or at once the running chain, which goes on with its task unless it has expired.
pub(crate) fn first_phase(running: Option<TaskId>) -> Phase
    ensures { result ≡ machine.first_phase running }
{
    match running {
        None => Phase::WriteFirst,
        Some(_) => Phase::Resume,
    }
}

// Where it begins again after a trap.
pub(crate) fn phase_again(running: Option<TaskId>) -> Phase
    ensures { result ≡ machine.phase_again running }
{
    match running {
        None => Phase::WriteFirst,
        Some(_) => Phase::WriteNext,
    }
}

// After the word that says how the chain goes on.
pub(crate) fn after_next(ending: Ending, origin: Origin) -> Phase
    ensures { result ≡ machine.after_next ending origin }
{
    match ending {
        Ending::Next { .. } => Phase::WriteStamp,
        _ => end_phase(origin),
    }
}

// Where the service is over: the end of a queue's event is written in one word more.
pub(crate) fn end_phase(origin: Origin) -> Phase
    ensures { result ≡ machine.end_phase origin }
{
    match origin {
        Origin::Source { .. } => Phase::WriteFinished,
        Origin::Pipe { .. } | Origin::Timer { .. } => Phase::ReadTotal,
    }
}

// After the commit: a finished queue event is acknowledged and released.
pub(crate) fn after_commit(ending: Ending, origin: Origin) -> Phase
    ensures { result ≡ machine.after_commit ending origin }
{
    match (ending, origin) {
        (Ending::Next { .. }, _) => Phase::Over,
        (_, Origin::Source { source, count }) => Phase::StoreAck { source, count },
        _ => Phase::Over,
    }
}
