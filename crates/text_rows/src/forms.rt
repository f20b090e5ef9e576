//! Sections with each form of a declaration and each instruction, as they are read (task_asm).

use crate::fixtures::{joined, read};
use crate::sections::{code, is_same};
use ink_base::JobAnswer;
use std::alloc::Global;
use std::test::Fail;
use task_isa::{Instr, Lines, Program, Reg};

const FORMS: &str = "[program]
thread a priority 1 queue 2 state 1 log 8 expires 2147483647
thread b priority 0 queue 32 state 256 log 4096
pipe p 64 from a to b
timer t thread a due 2147483647 period 5
timer u thread a off
task x thread a limit 4096
";

// The program of the forms, with this behind them.
fn with_forms(alloc: Global, text: &str) -> Result<(Program, Lines, u32), JobAnswer> {
    let whole = joined(alloc, FORMS, text)?;
    read(alloc, whole.as_str())
}

fn are_threads(program: &Program) -> bool {
    match program.threads.as_slice() {
        [a, b] => a.expires == Some(2147483647) && b.expires.is_none(),
        _ => false,
    }
}

fn is_pipe(program: &Program) -> bool {
    match program.pipes.as_slice() {
        [p] => p.name.is(b"p") && (p.places, p.writer.0, p.reader.0) == (64, 0, 1),
        _ => false,
    }
}

fn are_timers(program: &Program) -> bool {
    match program.timers.as_slice() {
        [t, u] => (t.due, t.period) == (Some(2147483647), 5) && (u.due, u.period) == (None, 0),
        _ => false,
    }
}

// Whether the threads, the pipe and the timers of the forms are read.
fn are_forms(alloc: Global) -> Result<(bool, bool, bool), JobAnswer> {
    let (program, _, _) = with_forms(alloc, "end\n[sensors]\n")?;
    Ok((
        are_threads(&program),
        is_pipe(&program),
        are_timers(&program),
    ))
}

#[test]
fn expires_pipes_and_timers_are_read(rt: HostRuntime) -> Result<(), Fail> {
    assert_eq!(rt; are_forms(rt.alloc())?, (true, true, true));
    Ok(())
}

const ARITHMETIC: &str = "sub r1 r2 r3
mul r1 r2 r3
and r1 r2 r3
or r1 r2 r3
xor r1 r2 r3
shl r1 r2 r3
shr r1 r2 r3
divu r1 r2 r3
remu r1 r2 r3
ltu r1 r2 r3
eq r1 r2 r3
end
[sensors]
";

fn is_arithmetic(code: &[Instr]) -> bool {
    let (a, b, c) = (Reg::new(1), Reg::new(2), Reg::new(3));
    let wanted = [
        Instr::Sub { a, b, c },
        Instr::Mul { a, b, c },
        Instr::And { a, b, c },
        Instr::Or { a, b, c },
        Instr::Xor { a, b, c },
        Instr::Shl { a, b, c },
        Instr::Shr { a, b, c },
        Instr::Divu { a, b, c },
        Instr::Remu { a, b, c },
        Instr::Ltu { a, b, c },
        Instr::Eq { a, b, c },
    ];
    is_same(code, &wanted)
}

fn has_arithmetic(alloc: Global) -> Result<bool, JobAnswer> {
    let (program, _, _) = with_forms(alloc, ARITHMETIC)?;
    Ok(is_arithmetic(code(&program, 0)))
}

#[test]
fn instructions_with_three_registers_are_read(rt: HostRuntime) -> Result<(), Fail> {
    assert!(rt; has_arithmetic(rt.alloc())?);
    Ok(())
}

const EFFECTS: &str = "mov r1 r2
kind r15
num r1
now r1
send p r1 r2
arm u r1 r2
stop t
end
[sensors]
";

fn are_effects(code: &[Instr]) -> bool {
    let (a, b) = (Reg::new(1), Reg::new(2));
    let wanted = [
        Instr::Mov { a, b },
        Instr::Kind { a: Reg::new(15) },
        Instr::Num { a },
        Instr::Now { a },
        Instr::Send { i: 0, a, b },
        Instr::Arm { i: 1, a, b },
        Instr::Stop { i: 0 },
    ];
    is_same(code, &wanted)
}

fn has_effects(alloc: Global) -> Result<bool, JobAnswer> {
    let (program, _, _) = with_forms(alloc, EFFECTS)?;
    Ok(are_effects(code(&program, 0)))
}

#[test]
fn instructions_with_effects_are_read(rt: HostRuntime) -> Result<(), Fail> {
    assert!(rt; has_effects(rt.alloc())?);
    Ok(())
}

const TARGETS: &str = "up:
jz r1 down
jnz r1 up
jmp after
down:
next y
after:
end
task y thread a limit 1
next x
end
[sensors]
";

fn are_targets(code: &[Instr]) -> bool {
    let a = Reg::new(1);
    let wanted = [
        Instr::Jz { a, i: 3 },
        Instr::Jnz { a, i: 0 },
        Instr::Jmp { i: 4 },
        Instr::Next { i: 1 },
    ];
    is_same(code, &wanted)
}

// The number of tasks, and whether each of the two has its targets.
fn targets(alloc: Global) -> Result<(usize, bool, bool), JobAnswer> {
    let (program, _, _) = with_forms(alloc, TARGETS)?;
    let back = is_same(code(&program, 1), &[Instr::Next { i: 0 }]);
    Ok((program.tasks.len(), are_targets(code(&program, 0)), back))
}

#[test]
fn targets_are_found_in_both_directions(rt: HostRuntime) -> Result<(), Fail> {
    assert_eq!(rt; targets(rt.alloc())?, (2, true, true));
    Ok(())
}
