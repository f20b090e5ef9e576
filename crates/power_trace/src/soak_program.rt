//! The program of a generated job.

ghost use Rattle.std.specs.Prelude.{◌≡◌, ◌∷◌, [], codes, IfOk};
ghost use Rattle.power_trace.specs.Soak.{soak_code, soak_program};

use ink_base::{NoMemory, ThreadId};
use prog_check::{Accepted, check};
use sqlite_items::Items;
use std::alloc::Global;
use task_isa::{Instr, Lines, Name, Program, Reg, Task, ThreadDef};

fn thread(alloc: Global) -> Result<ThreadDef, NoMemory>
    ensures { IfOk result (λ thread. soak_program.threads ≡ thread ∷ []) }
{
    Ok(ThreadDef {
        name: Name::new(alloc, b"a")?,
        priority: 1,
        queue: 4,
        state: 1,
        log: 4096,
        expires: None,
    })
}

// Register 1 is the number of the state's word, register 2 the sum and register 3 what is added.
fn code(alloc: Global) -> Result<Items<Instr>, NoMemory>
    ensures { IfOk result (λ code. code ≡ soak_code) }
{
    let (r1, r2, r3) = (Reg::new(1), Reg::new(2), Reg::new(3));
    let mut code = Items::new(alloc);
    code.push(Instr::Li { a: r1, i: 0 })?;
    code.push(Instr::Ld { a: r2, b: r1 })?;
    code.push(Instr::Ev { a: r3 })?;
    code.push(Instr::Add {
        a: r2,
        b: r2,
        c: r3,
    })?;
    code.push(Instr::St { a: r2, b: r1 })?;
    code.push(Instr::Out { a: r2 })?;
    code.push(Instr::Done)?;
    Ok(code)
}

fn task(alloc: Global) -> Result<Task, NoMemory>
    ensures { IfOk result (λ task. soak_program.tasks ≡ task ∷ []) }
{
    Ok(Task {
        name: Name::new(alloc, b"sum")?,
        thread: ThreadId(0),
        limit: 100,
        code: code(alloc)?,
    })
}

fn program(alloc: Global) -> Result<Program, NoMemory>
    ensures { IfOk result (λ program. program ≡ soak_program) }
{
    let mut threads = Items::new(alloc);
    threads.push(thread(alloc)?)?;
    let mut tasks = Items::new(alloc);
    tasks.push(task(alloc)?)?;
    Ok(Program {
        threads,
        sources: Items::from_slice(alloc, &[ThreadId(0), ThreadId(0)])?,
        pipes: Items::new(alloc),
        timers: Items::new(alloc),
        tasks,
    })
}

// The lines of a program that stands in no text.
fn no_lines(alloc: Global) -> Lines {
    Lines {
        program: 0,
        threads: Items::new(alloc),
        tasks: Items::new(alloc),
        code: Items::new(alloc),
    }
}

/// The program, which has no fault.
pub fn soak_program(alloc: Global) -> Result<Accepted, NoMemory>
    ensures { IfOk result (λ accepted. accepted ≡ soak_program) }
{
    let program = program(alloc)?;
    match check(program, &no_lines(alloc)) {
        Ok(accepted) => Ok(accepted),
        Err(_) => unreachable!(),
    }
}
