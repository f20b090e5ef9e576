//! The plan of a program.

ghost use Rattle.std.specs.Prelude.{◌≡◌, ◌+◌, ◌*◌, ◌<◌, ◌≤◌, true, false, length, slice_index, IfOk};
ghost use Rattle.prog_check.specs.Accepted.{IsAccepted, IsRightTask};
ghost use Rattle.prog_check.specs.Lookup.{instr_at};
ghost use Rattle.ink_plan.specs.Code.{goes_up, is_forward, may_follow, ends_task};
ghost use Rattle.ink_plan.specs.Plans.{is_path, weight_of, rest_behind, are_rests, is_forward_plan, is_looped_plan, is_task_plan, is_plan};
ghost use Rattle.ink_plan.specs.Lowest.{IsLowestNext, IsLowestPath, TakesLowest};
ghost use Rattle.ink_plan.specs.kept.Closed.{IsClosed};

use crate::bounds::{bound_of, least_of};
use crate::checking::rest_behind;
use crate::code::{ends_code, ends_task, greatest_weight, instr_at, is_forward, target_of, weight};
use crate::plan::{EnergyPlan, TaskPlan};
use ink_base::NoMemory;
use ink_base::limits::{INSTRUCTIONS, TASK_LIMIT};
use prog_check::Accepted;
use sqlite_items::Items;
use std::alloc::Global;
use task_isa::{Program, Task};

/// The plan of a program. Where a path may go on at two offsets it takes the one with the greater rest, the lower one where both have the
/// same. Out of memory may be answered at any time.
pub fn make_plan(alloc: Global, program: &Accepted) -> Result<EnergyPlan, NoMemory>
    ensures right { IfOk result (λ plan. is_plan program.now plan ≡ true) }
    ensures lowest { IfOk result (λ plan. TakesLowest program.now plan) }
    ensures all { IfOk result (λ plan. length plan.tasks ≡ length program.now.tasks) }
{
    let program = program.program();
    let mut tasks = Items::new(alloc);
    for task in program.tasks.as_slice() {
        tasks.push(plan_task(alloc, program, task)?)?;
    }
    let least = least_of(program, tasks.as_slice());
    Ok(EnergyPlan { tasks, least })
}

fn plan_task(alloc: Global, program: &Program, task: &Task) -> Result<TaskPlan, NoMemory>
    requires accepted { IsAccepted program.now }
    requires task { IsRightTask program.now task.now }
    requires short { length task.now.code ≤ INSTRUCTIONS }
    ensures right { IfOk result (λ plan. is_task_plan program.now task.now plan ≡ true) }
    ensures lowest { IfOk result (λ plan. IsLowestPath task.now plan.rest plan.path) }
{
    let mut plan = if is_forward(task) {
        forward_plan(alloc, task)?
    } else {
        looped_plan(alloc, task)
    };
    plan.bound = bound_of(program, task, plan.code) as u32;
    Ok(plan)
}

// The plan of forward code, without its bound.
fn forward_plan(alloc: Global, task: &Task) -> Result<TaskPlan, NoMemory>
    requires forward { is_forward task.now ≡ true }
    requires closed { IsClosed task.now }
    requires short { length task.now.code ≤ INSTRUCTIONS }
    ensures right { IfOk result (λ plan. is_forward_plan task.now plan ≡ true) }
    ensures lowest { IfOk result (λ plan. IsLowestPath task.now plan.rest plan.path) }
    ensures few { IfOk result (λ plan. plan.code ≤ 6 * INSTRUCTIONS) }
{
    let rest = rests(alloc, task)?;
    let path = heaviest_path(alloc, task, rest.as_slice())?;
    let code = rest.as_slice()[0];
    Ok(TaskPlan {
        forward: true,
        rest,
        path,
        code,
        bound: 0,
    })
}

// The plan of other code, without its bound.
fn looped_plan(alloc: Global, task: &Task) -> TaskPlan
    requires { task.now.limit ≤ TASK_LIMIT }
    ensures right { is_looped_plan task.now result ≡ true }
    ensures lowest { IsLowestPath task.now result.rest result.path }
    ensures few { result.code ≤ 6 * TASK_LIMIT }
{
    TaskPlan {
        forward: false,
        rest: Items::new(alloc),
        path: Items::new(alloc),
        code: u32::from(task.limit) * greatest_weight(task.code.as_slice()),
        bound: 0,
    }
}

// The rest of each offset of forward code, from the last one back: behind an instruction there are later ones alone.
fn rests(alloc: Global, task: &Task) -> Result<Items<u32>, NoMemory>
    requires up { goes_up task.now ≡ true }
    requires short { length task.now.code ≤ INSTRUCTIONS }
    ensures right { IfOk result (λ rest. are_rests task.now rest ≡ true) }
    ensures few { IfOk result (λ rest. slice_index rest 0 ≤ 6 * INSTRUCTIONS) }
{
    let count = task.code.len();
    let mut rest = Items::from_vec(vec![in alloc; 0; count]?);
    for behind in 0..count {
        let at = count - 1 - behind;
        let instr = instr_at(task, at);
        let heaviest = weight(&instr) + rest_behind(rest.as_slice(), at, &instr);
        rest.set(at, heaviest);
    }
    Ok(rest)
}

// A path through forward code that takes most.
fn heaviest_path(alloc: Global, task: &Task, rest: &[u32]) -> Result<Items<u16>, NoMemory>
    requires up { goes_up task.now ≡ true }
    requires closed { IsClosed task.now }
    requires short { length task.now.code ≤ INSTRUCTIONS }
    requires rests { are_rests task.now rest.now ≡ true }
    ensures path { IfOk result (λ path. is_path task.now path ≡ true) }
    ensures weight { IfOk result (λ path. weight_of task.now path ≡ slice_index rest.now 0) }
    ensures lowest { IfOk result (λ path. IsLowestPath task.now rest.now path) }
{
    let mut path = Items::new(alloc);
    let mut at = 0;
    path.push(at)?;
    while !ends_task(&instr_at(task, usize::from(at))) {
        at = heaviest_next(task, rest, at);
        path.push(at)?;
    }
    Ok(path)
}

// The offset at which a path of most accesses goes on, where the task isn't over.
fn heaviest_next(task: &Task, rest: &[u32], at: u16) -> u16
    requires up { goes_up task.now ≡ true }
    requires closed { IsClosed task.now }
    requires short { length task.now.code ≤ INSTRUCTIONS }
    requires rests { length rest.now ≡ length task.now.code }
    requires inside { at < length task.now.code }
    requires goes { ends_task (instr_at task.now at) ≡ false }
    ensures follows { may_follow task.now at result ≡ true }
    ensures later { at < result }
    ensures inside { result < length task.now.code }
    ensures heaviest { slice_index rest.now result ≡ rest_behind rest.now at (instr_at task.now at) }
    ensures lowest { IsLowestNext task.now rest.now at result }
{
    let instr = instr_at(task, usize::from(at));
    match target_of(&instr) {
        None => at + 1,
        Some(i) => {
            if ends_code(&instr) || rest[usize::from(at) + 1] < rest[i as usize] {
                i as u16
            } else {
                at + 1
            }
        }
    }
}
