//! The second step at one task.

ghost use Rattle.std.specs.Prelude.{◌≡◌, ◌<◌, ◌≤◌, length};
ghost use Rattle.std.specs.Result.{result_err};
ghost use Rattle.prog_check.specs.Lookup.{task_def};
ghost use Rattle.prog_check.specs.Accepted.{ends_code};
ghost use Rattle.prog_check.specs.Faults.{is_aimed, is_of_thread, stays, has_end, target_fault, code_fault, first_below};

use crate::demand::demand;
use crate::parts::{instr, instr_line, task, task_line};
use ink_base::{Cause, JobFault};
use task_isa::{Instr, Lines, Program, Task};

fn is_aimed(task: &Task, instr: &Instr) -> bool
    ensures { result ≡ is_aimed task.now instr.now }
{
    match instr {
        Instr::Jmp { i } | Instr::Jz { i, .. } | Instr::Jnz { i, .. } => {
            (*i as usize) < task.code.len()
        }
        _ => true,
    }
}

fn is_of_thread(program: &Program, task: &Task, next: usize) -> bool
    ensures { result ≡ is_of_thread program.now task.now next }
{
    next < program.tasks.len() && crate::parts::task(program, next).thread.0 == task.thread.0
}

fn stays(program: &Program, task: &Task, instr: &Instr) -> bool
    ensures { result ≡ stays program.now task.now instr.now }
{
    match instr {
        Instr::Next { i } => is_of_thread(program, task, *i as usize),
        _ => true,
    }
}

fn ends_code(instr: &Instr) -> bool
    ensures { result ≡ ends_code instr.now }
{
    matches!(instr, Instr::Jmp { .. } | Instr::Next { .. } | Instr::Done)
}

fn has_end(task: &Task) -> bool
    ensures { result ≡ has_end task.now }
{
    let count = task.code.len();
    0 < count && ends_code(instr(task, count - 1))
}

#[tactic(auto, unfolding(crate::specs::Faults::target_fault))]
fn judge_target(program: &Program, lines: &Lines, x: usize, n: usize) -> Result<(), JobFault>
    requires task { x < length program.now.tasks }
    requires offset { n < length (task_def program.now x).code }
    ensures { result_err result ≡ target_fault program.now lines.now x n }
{
    let task = task(program, x);
    let instr = instr(task, n);
    let line = instr_line(lines, x, n);
    demand(is_aimed(task, instr), line, Cause::BadTarget)?;
    demand(stays(program, task, instr), line, Cause::BadOwner)
}

#[tactic(auto, using(crate::proofs::Below::first_below_zero, crate::proofs::Below::first_below_more, crate::proofs::Below::first_below_at))]
fn judge_targets(program: &Program, lines: &Lines, x: usize) -> Result<(), JobFault>
    requires { x < length program.now.tasks }
    ensures { result_err result ≡ first_below (target_fault program.now lines.now x) (length (task_def program.now x).code) }
{
    let count = task(program, x).code.len();
    for n in 0..count {
        judge_target(program, lines, x, n)?;
    }
    Ok(())
}

#[tactic(auto, unfolding(crate::specs::Faults::code_fault))]
pub fn judge_code(program: &Program, lines: &Lines, x: usize) -> Result<(), JobFault>
    requires { x < length program.now.tasks }
    ensures { result_err result ≡ code_fault program.now lines.now x }
{
    judge_targets(program, lines, x)?;
    demand(
        has_end(task(program, x)),
        task_line(lines, x),
        Cause::Missing,
    )
}
