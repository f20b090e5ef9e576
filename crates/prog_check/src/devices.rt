//! The first step at pipes and timers.

ghost use Rattle.std.specs.Prelude.{◌≡◌, ◌<◌, length};
ghost use Rattle.std.specs.Result.{result_err};
ghost use Rattle.prog_check.specs.Faults.{is_pipe_taken, is_pipe_owned, pipe_fault, is_timer_within, is_timer_taken, timer_fault, kind_fault};

use crate::demand::demand;
use crate::parts::{pipe, timer};
use crate::threads::{has_thread, is_time};
use ink_base::limits::{PIPE_PLACES, PIPES, TICKS, TIMERS};
use ink_base::{Cause, JobFault};
use task_isa::{Lines, PipeDef, Program, TimerDef};

fn is_pipe_taken(before: &[PipeDef], pipe: &PipeDef) -> bool
    ensures { result ≡ is_pipe_taken before.now pipe.now }
{
    let name = pipe.name.as_bytes();
    before.iter().any(|other| other.name.is(name))
}

fn is_pipe_owned(program: &Program, pipe: &PipeDef) -> bool
    ensures { result ≡ is_pipe_owned program.now pipe.now }
{
    has_thread(program, pipe.writer.0)
        && has_thread(program, pipe.reader.0)
        && pipe.writer.0 != pipe.reader.0
}

#[tactic(auto, unfolding(crate::specs::Faults::pipe_fault))]
fn judge_pipe(program: &Program, lines: &Lines, q: usize) -> Result<(), JobFault>
    requires { q < length program.now.pipes }
    ensures { result_err result ≡ pipe_fault program.now lines.now q }
{
    let pipe = pipe(program, q);
    let line = lines.program;
    let before = &program.pipes.as_slice()[..q];
    demand(
        1 <= pipe.places && pipe.places <= PIPE_PLACES,
        line,
        Cause::OverLimit,
    )?;
    demand(!is_pipe_taken(before, pipe), line, Cause::Duplicate)?;
    demand(is_pipe_owned(program, pipe), line, Cause::BadOwner)
}

#[tactic(auto, using(crate::proofs::Below::first_below_zero, crate::proofs::Below::first_below_more, crate::proofs::Below::first_below_at))]
pub fn judge_pipes(program: &Program, lines: &Lines) -> Result<(), JobFault>
    ensures { result_err result ≡ kind_fault lines.now (length program.now.pipes) PIPES (pipe_fault program.now lines.now) }
{
    let count = program.pipes.len();
    demand(count <= PIPES, lines.program, Cause::OverLimit)?;
    for q in 0..count {
        judge_pipe(program, lines, q)?;
    }
    Ok(())
}

fn is_timer_within(timer: &TimerDef) -> bool
    ensures { result ≡ is_timer_within timer.now }
{
    is_time(timer.due) && timer.period <= TICKS && (timer.due.is_some() || timer.period == 0)
}

fn is_timer_taken(before: &[TimerDef], timer: &TimerDef) -> bool
    ensures { result ≡ is_timer_taken before.now timer.now }
{
    let name = timer.name.as_bytes();
    before.iter().any(|other| other.name.is(name))
}

#[tactic(auto, unfolding(crate::specs::Faults::timer_fault))]
fn judge_timer(program: &Program, lines: &Lines, j: usize) -> Result<(), JobFault>
    requires { j < length program.now.timers }
    ensures { result_err result ≡ timer_fault program.now lines.now j }
{
    let timer = timer(program, j);
    let line = lines.program;
    let before = &program.timers.as_slice()[..j];
    demand(is_timer_within(timer), line, Cause::OverLimit)?;
    demand(!is_timer_taken(before, timer), line, Cause::Duplicate)?;
    demand(has_thread(program, timer.thread.0), line, Cause::BadOwner)
}

#[tactic(auto, using(crate::proofs::Below::first_below_zero, crate::proofs::Below::first_below_more, crate::proofs::Below::first_below_at))]
pub fn judge_timers(program: &Program, lines: &Lines) -> Result<(), JobFault>
    ensures { result_err result ≡ kind_fault lines.now (length program.now.timers) TIMERS (timer_fault program.now lines.now) }
{
    let count = program.timers.len();
    demand(count <= TIMERS, lines.program, Cause::OverLimit)?;
    for j in 0..count {
        judge_timer(program, lines, j)?;
    }
    Ok(())
}
