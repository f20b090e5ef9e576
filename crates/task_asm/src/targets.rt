//! The targets of instructions.

ghost use Rattle.std.specs.Prelude.{◌≡◌};
ghost use Rattle.ink_base.specs.Gives.{GivesJob, each};
ghost use Rattle.task_lines.specs.Named.{place_of};
ghost use Rattle.task_lines.specs.Outside.{task_name};
ghost use Rattle.task_asm.specs.Targets.{aimed, instr_of, code_of, task_of};

use ink_base::{Cause, JobAnswer, JobFault};
use sqlite_items::Items;
use std::alloc::Global;
use task_isa::{Instr, Task};
use task_lines::{DraftInstr, DraftLine, DraftTask, Few, Labels, place_of};

fn number_of(tasks: &Few<DraftTask>, name: &[u8]) -> Option<u32>
    ensures { result ≡ place_of task_name tasks.now name.now }
{
    match place_of(tasks.as_slice(), name) {
        Some(place) => Some(place as u32),
        None => None,
    }
}

fn aimed(tasks: &Few<DraftTask>, labels: &Labels, instr: &DraftInstr) -> Option<Instr>
    ensures { result ≡ aimed tasks.now labels.now instr.now }
{
    match instr {
        DraftInstr::Ready(instr) => Some(*instr),
        DraftInstr::Jmp { target } => {
            let i = labels.get(target.as_bytes())?;
            Some(Instr::Jmp { i })
        }
        DraftInstr::Jz { a, target } => {
            let i = labels.get(target.as_bytes())?;
            Some(Instr::Jz { a: *a, i })
        }
        DraftInstr::Jnz { a, target } => {
            let i = labels.get(target.as_bytes())?;
            Some(Instr::Jnz { a: *a, i })
        }
        DraftInstr::Next { task } => {
            let i = number_of(tasks, task.as_bytes())?;
            Some(Instr::Next { i })
        }
    }
}

fn instr_of(tasks: &Few<DraftTask>, labels: &Labels, line: &DraftLine) -> Result<Instr, JobAnswer>
    ensures { GivesJob (λ x. x) result (instr_of tasks.now labels.now line.now) }
{
    match aimed(tasks, labels, &line.instr) {
        Some(instr) => Ok(instr),
        None => Err(JobAnswer::Fault(JobFault {
            line: line.line,
            cause: Cause::BadTarget,
        })),
    }
}

fn code_of(
    alloc: Global,
    tasks: &Few<DraftTask>,
    labels: &Labels,
    code: &[DraftLine],
) -> Result<Items<Instr>, JobAnswer>
    ensures { GivesJob (λ x. x) result (code_of tasks.now labels.now code.now) }
{
    let mut made = Items::new(alloc);
    for line in code {
        match instr_of(tasks, labels, line) {
            Ok(instr) => made.push(instr)?,
            Err(e) => return Err(e),
        }
    }
    Ok(made)
}

#[tactic(auto, unfolding(crate::specs::Targets::task_of))]
fn task_of(alloc: Global, tasks: &Few<DraftTask>, task: &DraftTask) -> Result<Task, JobAnswer>
    ensures { GivesJob (λ x. x) result (task_of tasks.now task.now) }
{
    let code = code_of(alloc, tasks, &task.labels, task.code.as_slice())?;
    let name = task.name.copy(alloc)?;
    Ok(Task {
        name,
        thread: task.thread,
        limit: task.limit,
        code,
    })
}

/// The tasks of a draft, with their targets. Refused by the first instruction whose target isn't there: `BadTarget` at its line.
pub fn tasks_of(alloc: Global, tasks: &Few<DraftTask>) -> Result<Items<Task>, JobAnswer>
    ensures { GivesJob (λ x. x) result (each (task_of tasks.now) tasks.now) }
{
    let mut made = Items::new(alloc);
    for task in tasks.as_slice() {
        match task_of(alloc, tasks, task) {
            Ok(task) => made.push(task)?,
            Err(e) => return Err(e),
        }
    }
    Ok(made)
}
