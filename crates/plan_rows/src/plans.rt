//! The text of a program's plan, and that its checker says true of it.

use crate::fixtures::accepted;
use ink_base::JobAnswer;
use ink_plan::{check_plan, make_plan, plan_text};
use std::alloc::Global;
use std::test::Fail;

fn is_planned(alloc: Global, program: &[u8], text: &[u8]) -> Result<bool, JobAnswer> {
    let program = accepted(alloc, program)?;
    let plan = make_plan(alloc, &program)?;
    let told = plan_text(alloc, program.program(), &plan)?;
    Ok(check_plan(&program, &plan) && told.as_slice() == text)
}

#[test]
fn forward_code_may_trap_at_a_load(rt: HostRuntime) -> Result<(), Fail> {
    let program =
        b"[program]\nthread a priority 1 queue 2 state 1 log 8\nsource a\ntask sum thread a limit 100\nli r1 0\nld r2 r1\nev r3\nadd r2 r2 r3\nst r2 r1\nout r2\ndone\nend\n[sensors]\n";
    assert!(rt;
        is_planned(
            rt.alloc(),
            program,
            b"task sum forward code 12 bound 252\nleast 267\n"
        )?
    );
    Ok(())
}

#[test]
fn a_task_without_a_trap_is_paid_for_once(rt: HostRuntime) -> Result<(), Fail> {
    let program =
        b"[program]\nthread a priority 1 queue 2 state 0 log 8 expires 20\nsource a\ntask t1 thread a limit 10\nev r0\nnext t2\nend\ntask t2 thread a limit 10\nli r0 1\nout r0\ndone\nend\n[sensors]\n";
    let text = b"task t1 forward code 2 bound 109\ntask t2 forward code 6 bound 214\nleast 229\n";
    assert!(rt; is_planned(rt.alloc(), program, text)?);
    Ok(())
}

#[test]
fn a_loop_takes_its_limit(rt: HostRuntime) -> Result<(), Fail> {
    let program =
        b"[program]\nthread a priority 1 queue 2 state 0 log 8\ntask wait thread a limit 50\nev r0\nl:\njnz r0 l\ndone\nend\n[sensors]\n";
    assert!(rt;
        is_planned(
            rt.alloc(),
            program,
            b"task wait looped code 50 bound 258\nleast 273\n"
        )?
    );
    Ok(())
}

// Code that is longer than its limit is looped too, and its heaviest instruction counts each time.
#[test]
fn a_limit_below_the_code_is_no_forward_code(rt: HostRuntime) -> Result<(), Fail> {
    let program =
        b"[program]\nthread a priority 1 queue 2 state 9 log 8\nthread b priority 2 queue 2 state 0 log 8\npipe q 4 from a to b\ntimer j thread b off\ntask t thread a limit 2\nsend q r0 r1\nstop_not:\nli r1 1\ndone\nend\ntask u thread b limit 3\narm j r0 r1\nstop j\ndone\nend\n[sensors]\n";
    let text = b"task t looped code 12 bound 284\ntask u forward code 6 bound 113\nleast 311\n";
    assert!(rt; is_planned(rt.alloc(), program, text)?);
    Ok(())
}
