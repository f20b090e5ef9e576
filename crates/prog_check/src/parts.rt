//! The parts of a program and their lines, by their numbers.

ghost use Rattle.std.specs.Prelude.{◌≡◌, ◌<◌, length, slice_index};
ghost use Rattle.prog_check.specs.Lookup.{thread_def, source_thread, pipe_def, timer_def, task_def, instr_at};
ghost use Rattle.prog_check.specs.Faults.{thread_line, task_line, instr_line};

use task_isa::{Instr, Lines, PipeDef, Program, Task, ThreadDef, TimerDef};

pub fn thread(program: &Program, t: usize) -> &ThreadDef
    requires { t < length program.now.threads }
    ensures { result.now ≡ thread_def program.now t }
{
    &program.threads.as_slice()[t]
}

pub fn source_thread(program: &Program, i: usize) -> u8
    requires { i < length program.now.sources }
    ensures { result ≡ source_thread program.now i }
{
    program.sources.as_slice()[i].0
}

pub fn pipe(program: &Program, q: usize) -> &PipeDef
    requires { q < length program.now.pipes }
    ensures { result.now ≡ pipe_def program.now q }
{
    &program.pipes.as_slice()[q]
}

pub fn timer(program: &Program, j: usize) -> &TimerDef
    requires { j < length program.now.timers }
    ensures { result.now ≡ timer_def program.now j }
{
    &program.timers.as_slice()[j]
}

pub fn task(program: &Program, x: usize) -> &Task
    requires { x < length program.now.tasks }
    ensures { result.now ≡ task_def program.now x }
{
    &program.tasks.as_slice()[x]
}

pub fn instr(task: &Task, n: usize) -> &Instr
    requires { n < length task.now.code }
    ensures { result.now ≡ instr_at task.now n }
{
    &task.code.as_slice()[n]
}

fn line_at(lines: &[u32], at: usize) -> u32
    ensures { result ≡ slice_index lines.now at }
{
    lines.get(at).copied().unwrap_or(0)
}

pub fn thread_line(lines: &Lines, t: usize) -> u32
    ensures { result ≡ thread_line lines.now t }
{
    line_at(lines.threads.as_slice(), t)
}

pub fn task_line(lines: &Lines, x: usize) -> u32
    ensures { result ≡ task_line lines.now x }
{
    line_at(lines.tasks.as_slice(), x)
}

pub fn instr_line(lines: &Lines, x: usize, n: usize) -> u32
    ensures { result ≡ instr_line lines.now x n }
{
    match lines.code.as_slice().get(x) {
        Some(code) => line_at(code.as_slice(), n),
        None => 0,
    }
}
