//! The first step at tasks and their instructions.

ghost use Rattle.std.specs.Prelude.{◌≡◌, ℕ, ◌<◌, ◌≤◌, length, nat_le, sum_by, IfOk};
ghost use Rattle.std.specs.Result.{result_err};
ghost use Rattle.task_isa.specs.Code.{IsInstr};
ghost use Rattle.prog_check.specs.Lookup.{task_def, instr_at};
ghost use Rattle.prog_check.specs.Accepted.{HasFittingCode};
ghost use Rattle.prog_check.specs.Faults.{is_task_taken, writes, sets, is_owned, instr_fault, task_fault, tasks_fault, first_below};
ghost use Rattle.task_isa.specs.declared.program.Task.{Task as ATask};

use crate::demand::demand;
use crate::operands::operands_fit;
use crate::parts::{instr, instr_line, pipe, task, task_line, timer};
use crate::threads::has_thread;
use ink_base::limits::{INSTRUCTIONS, TASK_LIMIT, TASKS};
use ink_base::{Cause, JobFault};
use task_isa::{Instr, Lines, Program, Task};

fn writes(program: &Program, task: &Task, q: u32) -> bool
    ensures { result ≡ writes program.now task.now q }
{
    let q = q as usize;
    q < program.pipes.len() && pipe(program, q).writer.0 == task.thread.0
}

fn sets(program: &Program, task: &Task, j: u32) -> bool
    ensures { result ≡ sets program.now task.now j }
{
    let j = j as usize;
    j < program.timers.len() && timer(program, j).thread.0 == task.thread.0
}

fn is_owned(program: &Program, task: &Task, instr: &Instr) -> bool
    ensures { result ≡ is_owned program.now task.now instr.now }
{
    match instr {
        Instr::Send { i, .. } => writes(program, task, *i),
        Instr::Arm { i, .. } | Instr::Stop { i } => sets(program, task, *i),
        Instr::Next { i } => (*i as usize) < program.tasks.len(),
        _ => true,
    }
}

#[tactic(auto, unfolding(crate::specs::Faults::instr_fault))]
fn judge_instr(program: &Program, lines: &Lines, x: usize, n: usize) -> Result<(), JobFault>
    requires task { x < length program.now.tasks }
    requires offset { n < length (task_def program.now x).code }
    ensures fault { result_err result ≡ instr_fault program.now lines.now x n }
    ensures fits { IsInstr (instr_at (task_def program.now x) n) }
{
    let task = task(program, x);
    let instr = instr(task, n);
    operands_fit(instr);
    let owned = is_owned(program, task, instr);
    demand(owned, instr_line(lines, x, n), Cause::BadOwner)
}

#[tactic(auto, using(crate::proofs::Below::first_below_zero, crate::proofs::Below::first_below_more, crate::proofs::Below::first_below_at))]
fn judge_owners(program: &Program, lines: &Lines, x: usize) -> Result<(), JobFault>
    requires { x < length program.now.tasks }
    ensures fault { result_err result ≡ first_below (instr_fault program.now lines.now x) (length (task_def program.now x).code) }
    ensures fits { IfOk result (λ _. HasFittingCode (task_def program.now x)) }
{
    let count = task(program, x).code.len();
    for n in 0..count {
        judge_instr(program, lines, x, n)?;
    }
    Ok(())
}

fn is_task_taken(before: &[Task], task: &Task) -> bool
    ensures { result ≡ is_task_taken before.now task.now }
{
    let name = task.name.as_bytes();
    before.iter().any(|other| other.name.is(name))
}

#[tactic(auto, unfolding(crate::specs::Faults::task_fault))]
fn judge_task(program: &Program, lines: &Lines, x: usize) -> Result<(), JobFault>
    requires { x < length program.now.tasks }
    ensures fault { result_err result ≡ task_fault program.now lines.now x }
    ensures fits { IfOk result (λ _. HasFittingCode (task_def program.now x)) }
{
    let task = task(program, x);
    let line = task_line(lines, x);
    let before = &program.tasks.as_slice()[..x];
    demand(
        1 <= task.limit && task.limit <= TASK_LIMIT,
        line,
        Cause::OverLimit,
    )?;
    demand(!is_task_taken(before, task), line, Cause::Duplicate)?;
    demand(has_thread(program, task.thread.0), line, Cause::BadOwner)?;
    judge_owners(program, lines, x)
}

/// Whether all tasks together have no more instructions than a program may have.
fn is_code_within(tasks: &[Task]) -> bool
    ensures { result ≡ nat_le (sum_by (λ (task : ATask). length task.code) tasks.now) INSTRUCTIONS }
{
    let mut left = INSTRUCTIONS;
    for task in tasks {
        if left < task.code.len() {
            return false;
        }
        left -= task.code.len();
    }
    true
}

#[tactic(auto, using(crate::proofs::Below::first_below_zero, crate::proofs::Below::first_below_more, crate::proofs::Below::first_below_at))]
pub fn judge_tasks(program: &Program, lines: &Lines) -> Result<(), JobFault>
    ensures fault { result_err result ≡ tasks_fault program.now lines.now }
    ensures fits { IfOk result (λ _. (x : ℕ) → x < length program.now.tasks → HasFittingCode (task_def program.now x)) }
{
    let count = program.tasks.len();
    demand(count <= TASKS, lines.program, Cause::OverLimit)?;
    demand(
        is_code_within(program.tasks.as_slice()),
        lines.program,
        Cause::OverLimit,
    )?;
    for x in 0..count {
        judge_task(program, lines, x)?;
    }
    Ok(())
}
