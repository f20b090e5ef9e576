//! Which parts of a program are a thread's own.

ghost use Rattle.std.specs.Prelude.{◌≡◌, ◌<◌, ◌↔◌, IsTrue, length};
ghost use Rattle.prog_check.specs.Lookup.{source_thread};
ghost use Rattle.never_cut.specs.Stands as parts;

use ink_base::{SourceId, ThreadId};
use ink_layout::Plan;

/// Whether a source feeds the thread.
pub(crate) fn is_fed_by(plan: &Plan, thread: ThreadId, source: SourceId) -> bool
    ensures { IsTrue result ↔ ((source.0 < length plan.now.accepted.sources) × (source_thread plan.now.accepted source.0 ≡ thread.0)) }
{
    match plan.program().sources.as_slice().get(usize::from(source.0)) {
        Some(fed) => *fed == thread,
        None => false,
    }
}

/// Whether the thread writes the pipe of a number.
pub(crate) fn writes(plan: &Plan, thread: ThreadId, pipe: u32) -> bool
    ensures { result ≡ parts.writes_pipe plan.now.accepted thread.0 pipe }
{
    match plan.program().pipes.as_slice().get(pipe as usize) {
        Some(pipe) => pipe.writer == thread,
        None => false,
    }
}

/// Whether it reads the pipe.
pub(crate) fn reads(plan: &Plan, thread: ThreadId, pipe: u32) -> bool
    ensures { result ≡ parts.reads_pipe plan.now.accepted thread.0 pipe }
{
    match plan.program().pipes.as_slice().get(pipe as usize) {
        Some(pipe) => pipe.reader == thread,
        None => false,
    }
}

/// Whether the timer of a number is its own.
pub(crate) fn owns(plan: &Plan, thread: ThreadId, timer: u32) -> bool
    ensures { result ≡ parts.owns_timer plan.now.accepted thread.0 timer }
{
    match plan.program().timers.as_slice().get(timer as usize) {
        Some(timer) => timer.thread == thread,
        None => false,
    }
}
