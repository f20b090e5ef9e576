//! The second step: threads without a task, targets, and code without an end.

ghost use Rattle.std.specs.Prelude.{◌≡◌, ◌<◌, length};
ghost use Rattle.std.specs.Result.{result_err};
ghost use Rattle.prog_check.specs.Faults.{has_task, served_fault, code_fault, meaning_fault, first_below};

use crate::code::judge_code;
use crate::demand::demand;
use crate::parts::thread_line;
use ink_base::{Cause, JobFault};
use task_isa::{Lines, Program, Task};

fn has_task(tasks: &[Task], t: usize) -> bool
    ensures { result ≡ has_task tasks.now t }
{
    tasks.iter().any(|task| usize::from(task.thread.0) == t)
}

fn judge_served(program: &Program, lines: &Lines, t: usize) -> Result<(), JobFault>
    ensures { result_err result ≡ served_fault program.now lines.now t }
{
    let served = has_task(program.tasks.as_slice(), t);
    demand(served, thread_line(lines, t), Cause::Missing)
}

#[tactic(auto, using(crate::proofs::Below::first_below_zero, crate::proofs::Below::first_below_more, crate::proofs::Below::first_below_at))]
fn judge_all_served(program: &Program, lines: &Lines) -> Result<(), JobFault>
    ensures { result_err result ≡ first_below (served_fault program.now lines.now) (length program.now.threads) }
{
    let count = program.threads.len();
    for t in 0..count {
        judge_served(program, lines, t)?;
    }
    Ok(())
}

#[tactic(auto, using(crate::proofs::Below::first_below_zero, crate::proofs::Below::first_below_more, crate::proofs::Below::first_below_at))]
fn judge_all_code(program: &Program, lines: &Lines) -> Result<(), JobFault>
    ensures { result_err result ≡ first_below (code_fault program.now lines.now) (length program.now.tasks) }
{
    let count = program.tasks.len();
    for x in 0..count {
        judge_code(program, lines, x)?;
    }
    Ok(())
}

#[tactic(auto, unfolding(crate::specs::Faults::meaning_fault))]
pub fn judge_meaning(program: &Program, lines: &Lines) -> Result<(), JobFault>
    ensures { result_err result ≡ meaning_fault program.now lines.now }
{
    demand(!program.threads.is_empty(), lines.program, Cause::Missing)?;
    judge_all_served(program, lines)?;
    judge_all_code(program, lines)
}
