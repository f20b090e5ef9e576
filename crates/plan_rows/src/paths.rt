//! The path of a plan, and plans that are changed by hand.

use crate::fixtures::accepted;
use ink_base::JobAnswer;
use ink_plan::{EnergyPlan, check_plan, make_plan, paths_text};
use prog_check::Accepted;
use sqlite_items::Items;
use std::alloc::Global;
use std::test::Fail;

/// At the first branch the jump leads to the heavier code, at the second one it passes an instruction.
const BRANCHES: &[u8] =
    b"[program]\nthread a priority 1 queue 2 state 1 log 8\ntask t thread a limit 20\nev r0\njz r0 far\nli r1 1\njmp end\nfar:\nout r0\njnz r0 same\nli r2 1\nsame:\nmov r3 r2\nend:\ndone\nend\n[sensors]\n";

/// Both branches take the same.
const EQUAL: &[u8] =
    b"[program]\nthread a priority 1 queue 2 state 1 log 8\ntask t thread a limit 20\nev r0\njz r0 b\njmp c\nb:\nli r1 1\nc:\ndone\nend\n[sensors]\n";

fn planned(alloc: Global, text: &[u8]) -> Result<(Accepted, EnergyPlan), JobAnswer> {
    let program = accepted(alloc, text)?;
    let plan = make_plan(alloc, &program)?;
    Ok((program, plan))
}

// The path of the only task, and the rest of each of its offsets.
fn has_path(alloc: Global, text: &[u8], path: &[u16], rest: &[u32]) -> Result<bool, JobAnswer> {
    let (_, plan) = planned(alloc, text)?;
    Ok(match plan.tasks.as_slice().first() {
        Some(task) => task.path.as_slice() == path && task.rest.as_slice() == rest,
        None => false,
    })
}

#[test]
fn the_path_takes_the_heavier_branch(rt: HostRuntime) -> Result<(), Fail> {
    let rest = [10, 9, 3, 2, 8, 4, 3, 2, 1];
    assert!(rt; has_path(rt.alloc(), BRANCHES, &[0, 1, 4, 5, 6, 7, 8], &rest)?);
    Ok(())
}

#[test]
fn of_equal_branches_the_path_takes_the_lower(rt: HostRuntime) -> Result<(), Fail> {
    assert!(rt; has_path(rt.alloc(), EQUAL, &[0, 1, 2, 4], &[4, 3, 2, 2, 1])?);
    Ok(())
}

// Whether the checker says true of a plan, and false with less for each charge, and without a task's plan.
fn is_checked(alloc: Global) -> Result<bool, JobAnswer> {
    let (program, mut plan) = planned(alloc, BRANCHES)?;
    let right = check_plan(&program, &plan);
    plan.least = plan.least.saturating_sub(1);
    let less = check_plan(&program, &plan);
    plan.tasks = Items::new(alloc);
    let none = check_plan(&program, &plan);
    Ok(right && !less && !none)
}

#[test]
fn a_plan_that_says_less_is_refused(rt: HostRuntime) -> Result<(), Fail> {
    assert!(rt; is_checked(rt.alloc())?);
    Ok(())
}

fn tells_paths(alloc: Global, text: &[u8], paths: &[u8]) -> Result<bool, JobAnswer> {
    let program = accepted(alloc, text)?;
    let plan = make_plan(alloc, &program)?;
    let told = paths_text(alloc, program.program(), &plan)?;
    Ok(told.as_slice() == paths)
}

// A task with a loop has no line.
#[test]
fn the_path_of_forward_code_is_told(rt: HostRuntime) -> Result<(), Fail> {
    let looped =
        b"[program]\nthread a priority 1 queue 2 state 0 log 8\ntask t thread a limit 9\nl:\njz r0 l\ndone\nend\ntask u thread a limit 9\nnext t\nend\n[sensors]\n";
    assert!(rt; tells_paths(rt.alloc(), BRANCHES, b"path t 0 1 4 5 6 7 8\n")?);
    assert!(rt; tells_paths(rt.alloc(), looped, b"path u 0\n")?);
    Ok(())
}
