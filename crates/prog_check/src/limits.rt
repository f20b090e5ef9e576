//! The first step: numbers, names and ids.

ghost use Rattle.std.specs.Prelude.{◌≡◌, ℕ, ◌<◌, ◌≤◌, length, IfOk};
ghost use Rattle.std.specs.Result.{result_err};
ghost use Rattle.prog_check.specs.Lookup.{thread_def, task_def};
ghost use Rattle.prog_check.specs.Accepted.{HasFittingCode};
ghost use Rattle.prog_check.specs.Faults.{limit_fault};

use crate::devices::{judge_pipes, judge_timers};
use crate::tasks::judge_tasks;
use crate::threads::{judge_sources, judge_threads};
use ink_base::JobFault;
use ink_base::limits::PRIORITY;
use task_isa::{Lines, Program};

#[tactic(auto, unfolding(crate::specs::Faults::limit_fault))]
pub fn judge_limits(program: &Program, lines: &Lines) -> Result<(), JobFault>
    ensures fault { result_err result ≡ limit_fault program.now lines.now }
    ensures priorities { IfOk result (λ _. (t : ℕ) → t < length program.now.threads → (thread_def program.now t).priority ≤ PRIORITY) }
    ensures fits { IfOk result (λ _. (x : ℕ) → x < length program.now.tasks → HasFittingCode (task_def program.now x)) }
{
    judge_threads(program, lines)?;
    judge_sources(program, lines)?;
    judge_pipes(program, lines)?;
    judge_timers(program, lines)?;
    judge_tasks(program, lines)?;
    Ok(())
}
