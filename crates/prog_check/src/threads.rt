//! The first step at threads and sources.

ghost use Rattle.std.specs.Prelude.{◌≡◌, ℕ, ◌<◌, ◌≤◌, length, IfOk};
ghost use Rattle.std.specs.Result.{result_err};
ghost use Rattle.prog_check.specs.Lookup.{thread_def};
ghost use Rattle.prog_check.specs.Faults.{is_time, is_thread_within, is_thread_taken, thread_fault, has_thread, source_fault, kind_fault};

use crate::demand::demand;
use crate::parts::{source_thread, thread, thread_line};
use ink_base::limits::{
    FEWEST_QUEUE_PLACES, LOG_PLACES, PRIORITY, QUEUE_PLACES, SOURCES, STATE_NUMBERS, THREADS, TICKS,
};
use ink_base::{Cause, JobFault};
use task_isa::{Lines, Program, ThreadDef};

pub fn is_time(ticks: Option<u32>) -> bool
    ensures { result ≡ is_time ticks }
{
    match ticks {
        None => true,
        Some(ticks) => ticks <= TICKS,
    }
}

pub fn has_thread(program: &Program, t: u8) -> bool
    ensures { result ≡ has_thread program.now t }
{
    usize::from(t) < program.threads.len()
}

fn is_thread_within(thread: &ThreadDef) -> bool
    ensures { result ≡ is_thread_within thread.now }
{
    FEWEST_QUEUE_PLACES <= thread.queue
        && thread.queue <= QUEUE_PLACES
        && thread.state <= STATE_NUMBERS
        && 1 <= thread.log
        && thread.log <= LOG_PLACES
        && is_time(thread.expires)
}

fn is_thread_taken(before: &[ThreadDef], thread: &ThreadDef) -> bool
    ensures { result ≡ is_thread_taken before.now thread.now }
{
    let name = thread.name.as_bytes();
    let priority = thread.priority;
    before
        .iter()
        .any(|other| other.name.is(name) || other.priority == priority)
}

#[tactic(auto, unfolding(crate::specs::Faults::thread_fault))]
fn judge_thread(program: &Program, lines: &Lines, t: usize) -> Result<(), JobFault>
    requires { t < length program.now.threads }
    ensures fault { result_err result ≡ thread_fault program.now lines.now t }
    ensures priority { (thread_def program.now t).priority ≤ PRIORITY }
{
    let thread = thread(program, t);
    let line = thread_line(lines, t);
    let _priority = thread.priority;
    let before = &program.threads.as_slice()[..t];
    demand(is_thread_within(thread), line, Cause::OverLimit)?;
    demand(!is_thread_taken(before, thread), line, Cause::Duplicate)
}

#[tactic(auto, using(crate::proofs::Below::first_below_zero, crate::proofs::Below::first_below_more, crate::proofs::Below::first_below_at))]
pub fn judge_threads(program: &Program, lines: &Lines) -> Result<(), JobFault>
    ensures fault { result_err result ≡ kind_fault lines.now (length program.now.threads) THREADS (thread_fault program.now lines.now) }
    ensures priorities { IfOk result (λ _. (t : ℕ) → t < length program.now.threads → (thread_def program.now t).priority ≤ PRIORITY) }
{
    let count = program.threads.len();
    demand(count <= THREADS, lines.program, Cause::OverLimit)?;
    for t in 0..count {
        judge_thread(program, lines, t)?;
    }
    Ok(())
}

#[tactic(auto, unfolding(crate::specs::Faults::source_fault))]
fn judge_source(program: &Program, lines: &Lines, i: usize) -> Result<(), JobFault>
    requires { i < length program.now.sources }
    ensures { result_err result ≡ source_fault program.now lines.now i }
{
    let owned = has_thread(program, source_thread(program, i));
    demand(owned, lines.program, Cause::BadOwner)
}

#[tactic(auto, using(crate::proofs::Below::first_below_zero, crate::proofs::Below::first_below_more, crate::proofs::Below::first_below_at))]
pub fn judge_sources(program: &Program, lines: &Lines) -> Result<(), JobFault>
    ensures { result_err result ≡ kind_fault lines.now (length program.now.sources) SOURCES (source_fault program.now lines.now) }
{
    let count = program.sources.len();
    demand(count <= SOURCES, lines.program, Cause::OverLimit)?;
    for i in 0..count {
        judge_source(program, lines, i)?;
    }
    Ok(())
}
