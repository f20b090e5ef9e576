//! The judgement of a program.

ghost use Rattle.std.specs.Prelude.{◌≡◌, ◌↔◌, IfOk, IsOk};
ghost use Rattle.std.specs.Result.{result_err};
ghost use Rattle.prog_check.specs.Accepted.{IsAccepted};
ghost use Rattle.prog_check.specs.Faults.{first_fault, verdict};

use crate::accepted::Accepted;
use crate::limits::judge_limits;
use crate::meaning::judge_meaning;
use ink_base::{JobAnswer, JobFault};
use task_isa::{Lines, Program};

#[tactic(auto, unfolding(crate::specs::Faults::first_fault))]
fn judge_program(program: &Program, lines: &Lines) -> Result<(), JobFault>
    ensures fault { result_err result ≡ first_fault program.now lines.now }
    ensures accepted { IfOk result (λ _. IsAccepted program.now) }
{
    judge_limits(program, lines)?;
    judge_meaning(program, lines)?;
    Ok(())
}

/// Accepts a program that has no fault, and answers the first fault of any other. Each fault is at the line that `lines` gives
/// its instruction, task or thread, else at that of the program's header; a part that `lines` doesn't list has line 0.
/// It takes no memory, and never answers that there was none.
pub fn check(program: Program, lines: &Lines) -> Result<Accepted, JobAnswer>
    ensures verdict { result ≡ verdict program (first_fault program lines.now) }
    ensures exact { IsOk result ↔ IsAccepted program }
{
    match judge_program(&program, lines) {
        Ok(()) => Ok(Accepted::new(program)),
        Err(fault) => Err(JobAnswer::Fault(fault)),
    }
}
