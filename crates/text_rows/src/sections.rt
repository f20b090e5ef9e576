//! Sections `[program]`: what is read of them, and the first fault of others (task_asm).

use crate::fixtures::read;
use ink_base::{JobAnswer, ThreadId};
use std::alloc::Global;
use std::test::Fail;
use task_isa::{Instr, Lines, Program, Reg, ThreadDef, encode};

const JOB: &str = "[program]
thread a priority 1 queue 2 state 1 log 8
source a
task sum thread a limit 100
li r1 0
ld r2 r1
ev r3
add r2 r2 r3
st r2 r1
out r2
done
end
[sensors]
S0 7
[power]
charge 0 S0*9 K*200
";

// Whether both are the same instructions, by their code words.
pub(crate) fn is_same(found: &[Instr], wanted: &[Instr]) -> bool {
    found.len() == wanted.len()
        && found
            .iter()
            .zip(wanted.iter())
            .all(|(a, b)| encode(*a) == encode(*b))
}

// The code of a task by its number.
pub(crate) fn code(program: &Program, task: usize) -> &[Instr] {
    match program.tasks.as_slice().get(task) {
        Some(task) => task.code.as_slice(),
        None => &[],
    }
}

fn is_thread_a(thread: &ThreadDef) -> bool {
    thread.name.is(b"a")
        && (thread.priority, thread.queue, thread.state, thread.log) == (1, 2, 1, 8)
}

fn has_its_thread(program: &Program) -> bool {
    match program.threads.as_slice() {
        [thread] => is_thread_a(thread) && program.sources.as_slice() == [ThreadId(0)].as_slice(),
        _ => false,
    }
}

fn has_its_task(program: &Program) -> bool {
    match program.tasks.as_slice() {
        [task] => task.name.is(b"sum") && task.limit == 100,
        _ => false,
    }
}

fn is_sum(code: &[Instr]) -> bool {
    let (r1, r2, r3) = (Reg::new(1), Reg::new(2), Reg::new(3));
    let wanted = [
        Instr::Li { a: r1, i: 0 },
        Instr::Ld { a: r2, b: r1 },
        Instr::Ev { a: r3 },
        Instr::Add {
            a: r2,
            b: r2,
            c: r3,
        },
        Instr::St { a: r2, b: r1 },
        Instr::Out { a: r2 },
        Instr::Done,
    ];
    is_same(code, &wanted)
}

// The number of the job's words up to the readings, and whether its program has its thread, its task and the code.
fn parts(alloc: Global) -> Result<(u32, bool, bool, bool), JobAnswer> {
    let (program, _, next) = read(alloc, JOB)?;
    let code_is = is_sum(code(&program, 0));
    Ok((
        next,
        has_its_thread(&program),
        has_its_task(&program),
        code_is,
    ))
}

#[test]
fn a_program_is_read(rt: HostRuntime) -> Result<(), Fail> {
    assert_eq!(rt; parts(rt.alloc())?, (38, true, true, true));
    Ok(())
}

fn are_its_lines(lines: &Lines) -> bool {
    let code_is = match lines.code.as_slice() {
        [code] => code.as_slice() == [5, 6, 7, 8, 9, 10, 11].as_slice(),
        _ => false,
    };
    code_is
        && lines.program == 1
        && lines.threads.as_slice() == [2].as_slice()
        && lines.tasks.as_slice() == [4].as_slice()
}

fn has_its_lines(alloc: Global) -> Result<bool, JobAnswer> {
    let (_, lines, _) = read(alloc, JOB)?;
    Ok(are_its_lines(&lines))
}

#[test]
fn parts_have_their_lines(rt: HostRuntime) -> Result<(), Fail> {
    assert!(rt; has_its_lines(rt.alloc())?);
    Ok(())
}
