//! Whether a plan is right.

ghost use Rattle.std.specs.Prelude.{◌≡◌, ◌<◌, ◌==◌, true, length, slice_index};
ghost use Rattle.prog_check.specs.Accepted.{IsAccepted, IsRightTask};
ghost use Rattle.prog_check.specs.Lookup.{task_def};
ghost use Rattle.ink_plan.specs.Charges.{LeastSuffices};
ghost use Rattle.ink_plan.specs.Bounded.{BoundsServices, TellsHeaviest};
ghost use Rattle.ink_plan.specs.Code.{all_below};
ghost use Rattle.ink_plan.specs.Slack.{TellsSlack};
ghost use Rattle.ink_plan.specs.Plans.{walks, is_path, weight_of, rest_behind, is_rest, are_rests, is_forward_plan, is_looped_plan, is_task_plan, plan_of, is_plan};

use crate::bounds::{bound_of, least_of};
use crate::code::{
    ends_code, ends_task, greatest_weight, instr_at, is_forward, may_follow, target_of, weight,
};
use crate::plan::{EnergyPlan, TaskPlan};
use prog_check::Accepted;
use task_isa::{Instr, Program, Task};

/// Whether a plan is the program's: one of each task, each of which is right, and the least number of accesses that follows from them. It
/// takes no memory, and each number is checked against the code, whoever made it.
///
/// Where it says true, no service of a thread costs more accesses than the bound of the task that it goes on with or begins with, in any
/// state that a run comes to; of forward code the path takes what the plan says of the code, and no other path takes more; and each charge
/// with the least number of accesses has a scan that is answered, by a commit or by looks at all threads of which none has an event then.
/// Where the code has one path and can't trap, it also says by how much a service stays below its bound.
pub fn check_plan(program: &Accepted, plan: &EnergyPlan) -> bool
    ensures exact { result ≡ is_plan program.now plan.now }
    ensures bounds { result ≡ true → BoundsServices program.now plan.now }
    ensures heaviest { result ≡ true → TellsHeaviest program.now plan.now }
    ensures least { result ≡ true → LeastSuffices program.now plan.now }
    ensures slack { result ≡ true → TellsSlack program.now plan.now }
{
    is_plan(program.program(), plan)
}

fn is_plan(program: &Program, plan: &EnergyPlan) -> bool
    requires { IsAccepted program.now }
    ensures { result ≡ is_plan program.now plan.now }
{
    plan.tasks.len() == program.tasks.len()
        && are_planned(program, plan)
        && plan.least == least_of(program, plan.tasks.as_slice())
}

#[tactic(auto, using(crate::proofs::Below::below_zero, crate::proofs::Below::below_more, crate::proofs::Below::below_not))]
fn are_planned(program: &Program, plan: &EnergyPlan) -> bool
    requires accepted { IsAccepted program.now }
    requires all { length plan.now.tasks ≡ length program.now.tasks }
    ensures { result ≡ all_below (λ x. is_task_plan program.now (task_def program.now x) (plan_of plan.now x)) (length program.now.tasks) }
{
    for x in 0..program.tasks.len() {
        if !is_planned(
            program,
            &program.tasks.as_slice()[x],
            &plan.tasks.as_slice()[x],
        ) {
            return false;
        }
    }
    true
}

fn is_planned(program: &Program, task: &Task, plan: &TaskPlan) -> bool
    requires accepted { IsAccepted program.now }
    requires task { IsRightTask program.now task.now }
    ensures { result ≡ is_task_plan program.now task.now plan.now }
{
    let code_right = if is_forward(task) {
        is_forward_plan(task, plan)
    } else {
        is_looped_plan(task, plan)
    };
    code_right && u64::from(plan.bound) == bound_of(program, task, plan.code)
}

fn is_forward_plan(task: &Task, plan: &TaskPlan) -> bool
    requires { 0 < length task.now.code }
    ensures { result ≡ is_forward_plan task.now plan.now }
{
    let rest = plan.rest.as_slice();
    let path = plan.path.as_slice();
    plan.forward
        && are_rests(task, rest)
        && plan.code == rest[0]
        && is_path(task, path)
        && takes(task, path, plan.code)
}

fn is_looped_plan(task: &Task, plan: &TaskPlan) -> bool
    ensures { result ≡ is_looped_plan task.now plan.now }
{
    let code = u32::from(task.limit) * greatest_weight(task.code.as_slice());
    !plan.forward && plan.rest.len() == 0 && plan.path.len() == 0 && plan.code == code
}

#[tactic(auto, using(crate::proofs::Below::below_zero, crate::proofs::Below::below_more, crate::proofs::Below::below_not))]
fn are_rests(task: &Task, rest: &[u32]) -> bool
    ensures { result ≡ are_rests task.now rest.now }
{
    if rest.len() != task.code.len() {
        return false;
    }
    for at in 0..rest.len() {
        if !is_rest(task, rest, at) {
            return false;
        }
    }
    true
}

fn is_rest(task: &Task, rest: &[u32], at: usize) -> bool
    requires { at < length rest.now }
    ensures { result ≡ is_rest task.now rest.now at }
{
    let instr = instr_at(task, at);
    u64::from(rest[at]) == u64::from(weight(&instr)) + u64::from(rest_behind(rest, at, &instr))
}

/// The greater rest of the offsets at which the task may go on behind an instruction, 0 where it is over.
pub(crate) fn rest_behind(rest: &[u32], at: usize, instr: &Instr) -> u32
    requires { at < length rest.now }
    ensures { result ≡ rest_behind rest.now at instr.now }
{
    let next = if ends_code(instr) {
        0
    } else {
        rest_at(rest, at + 1)
    };
    match target_of(instr) {
        None => next,
        Some(i) => next.max(rest_at(rest, i as usize)),
    }
}

fn rest_at(rest: &[u32], at: usize) -> u32
    ensures { result ≡ slice_index rest.now at }
{
    rest.get(at).copied().unwrap_or(0)
}

// Whether offsets are a path through the code.
fn is_path(task: &Task, path: &[u16]) -> bool
    ensures { result ≡ is_path task.now path.now }
{
    match path {
        [] => false,
        [first, others @ ..] => *first == 0 && walks(task, others),
    }
}

// Whether the task goes on from its first instruction over these offsets, and is over behind the last.
fn walks(task: &Task, path: &[u16]) -> bool
    ensures { result ≡ walks task.now 0 path.now }
{
    let mut at = 0;
    for next in path {
        if !may_follow(task, at, *next) {
            return false;
        }
        at = *next;
    }
    ends_task(&instr_at(task, usize::from(at)))
}

// Whether the instructions of a path take so many accesses.
fn takes(task: &Task, path: &[u16], count: u32) -> bool
    ensures { result ≡ (weight_of task.now path.now == count) }
{
    let mut left = count;
    for at in path {
        let weight = weight(&instr_at(task, usize::from(*at)));
        if left < weight {
            return false;
        }
        left -= weight;
    }
    left == 0
}
