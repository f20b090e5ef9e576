//! Prints tasks and whole programs.

ghost use Rattle.std.specs.Prelude.{◌≡◌, ◌++◌, ◌<◌, length, flat_map, OnOk, IfOk};
ghost use Rattle.std.specs.List.{All};
ghost use Rattle.prog_check.specs.Lookup.{instr_at};
ghost use Rattle.task_isa.specs.Code.{IsInstr};
ghost use Rattle.program_text.specs.Marks.{AreMarks};
ghost use Rattle.program_text.specs.Print.{label_text, line_text, each_below, task_line, task_text, print_of};
ghost use Rattle.program_text.specs.Reread.{ReadsBack};
ghost use Rattle.program_text.specs.Typed.{IsNamed, IsTypedTask, IsTyped};

use crate::instruction::put_instr;
use crate::marks::label_marks;
use crate::parts::{put_pipes, put_sources, put_threads, put_timers, thread_name};
use ink_base::NoMemory;
use ink_text::{put_count, put_name};
use prog_check::Accepted;
use std::alloc::Global;
use task_isa::{Program, Task};

fn put_label(out: &mut Vec<u8>, needed: bool, offset: usize) -> Result<(), NoMemory>
    ensures { OnOk result (out.new.items ≡ out.old.items ++ label_text needed offset) }
{
    if !needed {
        return Ok(());
    }
    put_count(out, b"L", offset as u64)?;
    out.extend_from_slice(b":\n")?;
    Ok(())
}

fn put_line(
    out: &mut Vec<u8>,
    program: &Program,
    task: &Task,
    marks: &[bool],
    offset: usize,
) -> Result<(), NoMemory>
    requires offset { offset < length task.now.code }
    requires marks { AreMarks marks.now (length task.now.code) task.now.code }
    ensures text { OnOk result (out.new.items ≡ out.old.items ++ line_text program.now task.now offset) }
    ensures fits { OnOk result (IsInstr (instr_at task.now offset)) }
{
    put_label(out, marks[offset], offset)?;
    put_instr(out, program, task.code.as_slice()[offset])?;
    out.push(b'\n')?;
    Ok(())
}

fn put_code(
    out: &mut Vec<u8>,
    alloc: Global,
    program: &Program,
    task: &Task,
) -> Result<(), NoMemory>
    ensures text { OnOk result (out.new.items ≡ out.old.items ++ each_below (length task.now.code) (line_text program.now task.now)) }
    ensures fits { OnOk result (All IsInstr task.now.code) }
{
    let marks = label_marks(alloc, task.code.as_slice())?;
    for offset in 0..task.code.len() {
        put_line(out, program, task, marks.as_slice(), offset)?;
    }
    Ok(())
}

fn put_task_line(out: &mut Vec<u8>, program: &Program, task: &Task) -> Result<(), NoMemory>
    ensures text { OnOk result (out.new.items ≡ out.old.items ++ task_line program.now task.now) }
    ensures named { OnOk result (IsNamed task.now.name) }
{
    put_name(out, b"task ", task.name.as_bytes())?;
    put_name(out, b" thread ", thread_name(program, task.thread))?;
    put_count(out, b" limit ", u64::from(task.limit))?;
    out.push(b'\n')?;
    Ok(())
}

fn put_task(
    out: &mut Vec<u8>,
    alloc: Global,
    program: &Program,
    task: &Task,
) -> Result<(), NoMemory>
    ensures text { OnOk result (out.new.items ≡ out.old.items ++ task_text program.now task.now) }
    ensures typed { OnOk result (IsTypedTask task.now) }
{
    put_task_line(out, program, task)?;
    put_code(out, alloc, program, task)?;
    out.extend_from_slice(b"end\n")?;
    Ok(())
}

fn put_tasks(
    out: &mut Vec<u8>,
    alloc: Global,
    program: &Program,
    tasks: &[Task],
) -> Result<(), NoMemory>
    ensures text { OnOk result (out.new.items ≡ out.old.items ++ flat_map (task_text program.now) tasks.now) }
    ensures typed { OnOk result (All IsTypedTask tasks.now) }
{
    for task in tasks {
        put_task(out, alloc, program, task)?;
    }
    Ok(())
}

fn put_program(out: &mut Vec<u8>, alloc: Global, program: &Program) -> Result<(), NoMemory>
    ensures text { OnOk result (out.new.items ≡ out.old.items ++ print_of program.now) }
    ensures typed { OnOk result (IsTyped program.now) }
{
    out.extend_from_slice(b"[program]\n")?;
    put_threads(out, program.threads.as_slice())?;
    put_sources(out, program, program.sources.as_slice())?;
    put_pipes(out, program, program.pipes.as_slice())?;
    put_timers(out, program, program.timers.as_slice())?;
    put_tasks(out, alloc, program, program.tasks.as_slice())
}

/// The canonical text of a program: the section `[program]`, with its parts in the order of their numbers, one space between words,
/// numbers without leading zeros, and the label `Lo` before the instruction of offset `o` where a jump goes to it. With the header
/// `[sensors]` behind it, it is read as this program again.
pub fn print_program(alloc: Global, program: &Accepted) -> Result<Vec<u8>, NoMemory>
    ensures text { IfOk result (λ text. text.items ≡ print_of program.now) }
    ensures back { IfOk result (λ text. ReadsBack text.items program.now) }
{
    let mut out = Vec::new(alloc);
    put_program(&mut out, alloc, program.program())?;
    Ok(out)
}
