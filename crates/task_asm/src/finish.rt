//! The program of a draft, and the lines of its parts.

ghost use Rattle.std.specs.Prelude.{◌≡◌, map, IfOk};
ghost use Rattle.ink_base.specs.Gives.{GivesJob};
ghost use Rattle.task_asm.specs.Section.{code_lines, lines_of_draft};
ghost use Rattle.task_asm.specs.Targets.{program_of};

use crate::targets::tasks_of;
use ink_base::{JobAnswer, NoMemory};
use sqlite_items::Items;
use std::alloc::Global;
use task_isa::{Lines, Program};
use task_lines::{Draft, DraftTask};

fn code_lines(alloc: Global, task: &DraftTask) -> Result<Items<u32>, NoMemory>
    ensures { IfOk result (λ lines. lines ≡ code_lines task.now) }
{
    let lines = task.code.as_slice().iter().map(|l| l.line).collect(alloc)?;
    Ok(Items::from_vec(lines))
}

fn lines_of_code(alloc: Global, tasks: &[DraftTask]) -> Result<Items<Items<u32>>, NoMemory>
    ensures { IfOk result (λ ls. ls ≡ map code_lines tasks.now) }
{
    let mut made = Items::new(alloc);
    for task in tasks {
        made.push(code_lines(alloc, task)?)?;
    }
    Ok(made)
}

fn lines_of_tasks(alloc: Global, tasks: &[DraftTask]) -> Result<Items<u32>, NoMemory>
    ensures { IfOk result (λ ls. ls ≡ map (λ t. t.line) tasks.now) }
{
    let lines = tasks.iter().map(|t| t.line).collect(alloc)?;
    Ok(Items::from_vec(lines))
}

fn lines_of(alloc: Global, header: u32, draft: &Draft) -> Result<Lines, NoMemory>
    ensures { IfOk result (λ lines. lines ≡ lines_of_draft header draft.now) }
{
    Ok(Lines {
        program: header,
        threads: Items::from_slice(alloc, draft.thread_lines.as_slice())?,
        tasks: lines_of_tasks(alloc, draft.tasks.as_slice())?,
        code: lines_of_code(alloc, draft.tasks.as_slice())?,
    })
}

/// The program of a draft, and the lines of its parts, of which `header` is that of the section. Refused by the first instruction
/// whose target isn't there: `BadTarget` at its line.
#[tactic(auto, unfolding(crate::specs::Targets::program_of))]
pub fn finish(alloc: Global, header: u32, draft: Draft) -> Result<(Program, Lines), JobAnswer>
    ensures program { GivesJob (λ x. x.0) result (program_of draft) }
    ensures lines { IfOk result (λ x. x.1 ≡ lines_of_draft header draft) }
{
    let tasks = tasks_of(alloc, &draft.tasks)?;
    let lines = lines_of(alloc, header, &draft)?;
    let program = Program {
        threads: draft.threads.into_items(),
        sources: draft.sources,
        pipes: draft.pipes.into_items(),
        timers: draft.timers.into_items(),
        tasks,
    };
    Ok((program, lines))
}
