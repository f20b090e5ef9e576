//! The text of a plan.

ghost use Rattle.std.specs.Prelude.{◌≡◌, ◌++◌, length, flat_map, IfOk, OnOk};
ghost use Rattle.ink_plan.specs.Text.{kind_of, task_line, task_lines, offset, path_line, path_lines};
ghost use Rattle.ink_plan.specs.Text.{plan_text as text_of_plan};

use crate::plan::{EnergyPlan, TaskPlan};
use ink_base::NoMemory;
use ink_text::{put_count, put_name};
use std::alloc::Global;
use task_isa::{Program, Task};

/// The text of a plan that has one of each task of the program: a line for each task, in order, and the least that a charge should have. Out
/// of memory may be answered at any time.
pub fn plan_text(alloc: Global, program: &Program, plan: &EnergyPlan) -> Result<Vec<u8>, NoMemory>
    requires { length plan.now.tasks ≡ length program.now.tasks }
    ensures { IfOk result (λ text. text.items ≡ text_of_plan program.now plan.now) }
{
    let mut out = Vec::new(alloc);
    put_tasks(&mut out, program, plan)?;
    put_count(&mut out, b"least ", plan.least)?;
    out.push(b'\n')?;
    Ok(out)
}

fn put_tasks(out: &mut Vec<u8>, program: &Program, plan: &EnergyPlan) -> Result<(), NoMemory>
    requires { length plan.now.tasks ≡ length program.now.tasks }
    ensures { OnOk result (out.new.items ≡ out.old.items ++ task_lines program.now plan.now (length program.now.tasks)) }
{
    for x in 0..program.tasks.len() {
        put_task(out, &program.tasks.as_slice()[x], &plan.tasks.as_slice()[x])?;
    }
    Ok(())
}

fn put_task(out: &mut Vec<u8>, task: &Task, plan: &TaskPlan) -> Result<(), NoMemory>
    ensures { OnOk result (out.new.items ≡ out.old.items ++ task_line task.now plan.now) }
{
    put_name(out, b"task ", task.name.as_bytes())?;
    out.extend_from_slice(kind_of(plan.forward))?;
    put_count(out, b" code ", u64::from(plan.code))?;
    put_count(out, b" bound ", u64::from(plan.bound))?;
    out.push(b'\n')?;
    Ok(())
}

fn kind_of(forward: bool) -> &'static [u8]
    ensures { result.now ≡ kind_of forward }
{
    if forward { b" forward" } else { b" looped" }
}

/// The paths that a plan tells: a line for each task with forward code, in order, with the offsets of a path that takes most. An offset is
/// the number of an instruction of the task, from 0 on, as the labels of the canonical text have it. Out of memory may be answered at any
/// time.
pub fn paths_text(alloc: Global, program: &Program, plan: &EnergyPlan) -> Result<Vec<u8>, NoMemory>
    requires { length plan.now.tasks ≡ length program.now.tasks }
    ensures { IfOk result (λ text. text.items ≡ path_lines program.now plan.now (length program.now.tasks)) }
{
    let mut out = Vec::new(alloc);
    for x in 0..program.tasks.len() {
        put_path(
            &mut out,
            &program.tasks.as_slice()[x],
            &plan.tasks.as_slice()[x],
        )?;
    }
    Ok(out)
}

fn put_path(out: &mut Vec<u8>, task: &Task, plan: &TaskPlan) -> Result<(), NoMemory>
    ensures { OnOk result (out.new.items ≡ out.old.items ++ path_line task.now plan.now) }
{
    if plan.forward {
        put_name(out, b"path ", task.name.as_bytes())?;
        put_offsets(out, plan.path.as_slice())?;
        out.push(b'\n')?;
    }
    Ok(())
}

fn put_offsets(out: &mut Vec<u8>, path: &[u16]) -> Result<(), NoMemory>
    ensures { OnOk result (out.new.items ≡ out.old.items ++ flat_map offset path.now) }
{
    for at in path {
        put_count(out, b" ", u64::from(*at))?;
    }
    Ok(())
}
