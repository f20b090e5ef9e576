//! What a task needs to know of its program.

ghost use Rattle.std.specs.Prelude.{◌≡◌, ◌==◌, ◌%◌, ◌<◌, ◌^◌, length};
ghost use Rattle.std.specs.List.{position};
ghost use Rattle.prog_check.specs.Accepted.{IsAccepted};
ghost use Rattle.task_isa.specs.Acts as acts;
ghost use Rattle.task_isa.specs.Code.{decoded};
ghost use Rattle.task_isa.specs.declared.program.Task.{Task};
ghost use Rattle.prog_check.specs.Lookup as lookup;
ghost use Rattle.task_run.specs.Machine as machine;
ghost use Rattle.task_run.specs.Actions as actions;
ghost use Rattle.task_run.specs.Fits.{FitsChain};

use ink_base::{Origin, TaskId, ThreadId};
use persist_timer::is_expired;
use task_isa::{Instr, Program, Task, decode};

// The place of the first task of a thread.
fn place_of(tasks: &[Task], thread: ThreadId) -> Option<usize>
    ensures { result ≡ position (λ (task : Task). task.thread.0 == thread.0) tasks.now }
{
    tasks.iter().position(|task| task.thread.0 == thread.0)
}

// The first task of a thread.
#[tactic(auto, using(crate::proofs::Firsts::first_place))]
pub(crate) fn first_task(program: &Program, thread: ThreadId) -> TaskId
    requires { IsAccepted program.now }
    ensures { result.0 ≡ lookup.first_task program.now thread.0 }
{
    let tasks = program.tasks.as_slice();
    let place = place_of(tasks, thread).unwrap_or(tasks.len());
    TaskId(place as u16)
}

// The number of a thread's state numbers.
pub(crate) fn state_of(program: &Program, thread: ThreadId) -> u32
    requires { thread.0 < length program.now.threads }
    ensures { result ≡ (lookup.thread_def program.now thread.0).state }
{
    program.threads.as_slice()[thread.0 as usize].state as u32
}

// The number of the source, pipe or timer that an event is of.
pub(crate) fn number_of(origin: Origin) -> u32
    ensures { result ≡ acts.number_of origin }
{
    match origin {
        Origin::Source { source, .. } => source.0 as u32,
        Origin::Pipe { pipe, .. } => pipe.0 as u32,
        Origin::Timer { timer, .. } => timer.0 as u32,
    }
}

// A running chain has run, at a time, for more ticks than its thread allows.
pub(crate) fn is_overdue(
    expires: Option<u32>,
    running: Option<TaskId>,
    first: u64,
    time: u64,
) -> bool
    requires { FitsChain expires running first time }
    ensures { result ≡ actions.is_overdue expires running first time }
{
    match (expires, running) {
        (Some(ticks), Some(_)) => is_expired(ticks, first, time),
        _ => false,
    }
}

// The instruction of a code word.
#[inline(always)]
pub(crate) fn instr_of(word: u64) -> Instr
    ensures { result ≡ machine.instr_of (decoded word) }
{
    match decode(word) {
        Some(instr) => instr,
        None => Instr::Done,
    }
}

// The low 32 bits of a word.
pub(crate) fn low(word: u64) -> u32
    ensures { result ≡ word % 2 ^ 32 }
{
    (word % (1 << 32)) as u32
}
