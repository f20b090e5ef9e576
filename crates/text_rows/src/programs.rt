//! Programs built by hand, as no text gives them (prog_check).

use ink_base::{Cause, JobAnswer, JobFault, NoMemory, ThreadId};
use prog_check::{Accepted, check};
use sqlite_items::Items;
use std::alloc::Global;
use std::test::Fail;
use task_isa::{Instr, Lines, Name, PipeDef, Program, Reg, Task, ThreadDef};

fn thread(alloc: Global, queue: u8) -> Result<ThreadDef, NoMemory> {
    Ok(ThreadDef {
        name: Name::new(alloc, b"a")?,
        priority: 1,
        queue,
        state: 1,
        log: 8,
        expires: None,
    })
}

fn task(alloc: Global) -> Result<Task, NoMemory> {
    let code = [Instr::Ev { a: Reg::new(3) }, Instr::Done];
    Ok(Task {
        name: Name::new(alloc, b"sum")?,
        thread: ThreadId(0),
        limit: 100,
        code: Items::from_slice(alloc, &code)?,
    })
}

fn pipe(alloc: Global) -> Result<PipeDef, NoMemory> {
    Ok(PipeDef {
        name: Name::new(alloc, b"q")?,
        places: 1,
        writer: ThreadId(0),
        reader: ThreadId(0),
    })
}

// A thread with a queue of so many places, a source of it and a task.
fn program(alloc: Global, queue: u8) -> Result<Program, NoMemory> {
    let mut threads = Items::new(alloc);
    threads.push(thread(alloc, queue)?)?;
    let mut tasks = Items::new(alloc);
    tasks.push(task(alloc)?)?;
    Ok(Program {
        threads,
        sources: Items::from_slice(alloc, &[ThreadId(0)])?,
        pipes: Items::new(alloc),
        timers: Items::new(alloc),
        tasks,
    })
}

// The same with a pipe of the thread to itself.
fn looped(alloc: Global) -> Result<Program, NoMemory> {
    let mut looped = program(alloc, 2)?;
    looped.pipes.push(pipe(alloc)?)?;
    Ok(looped)
}

fn lines(alloc: Global) -> Result<Lines, NoMemory> {
    let mut code = Items::new(alloc);
    code.push(Items::from_slice(alloc, &[5, 6])?)?;
    Ok(Lines {
        program: 1,
        threads: Items::from_slice(alloc, &[2])?,
        tasks: Items::from_slice(alloc, &[4])?,
        code,
    })
}

fn checked(alloc: Global, program: Program) -> Result<Accepted, JobAnswer> {
    let lines = lines(alloc)?;
    check(program, &lines)
}

fn refusal(alloc: Global, program: Program) -> Option<JobFault> {
    match checked(alloc, program) {
        Err(JobAnswer::Fault(fault)) => Some(fault),
        _ => None,
    }
}

fn refusal_of_queue(alloc: Global, queue: u8) -> Result<Option<JobFault>, NoMemory> {
    let program = program(alloc, queue)?;
    Ok(refusal(alloc, program))
}

fn refusal_of_looped(alloc: Global) -> Result<Option<JobFault>, NoMemory> {
    let looped = looped(alloc)?;
    Ok(refusal(alloc, looped))
}

fn is_the_sum(program: &Program) -> bool {
    let task_is = match program.tasks.as_slice() {
        [task] => task.name.is(b"sum") && task.code.len() == 2,
        _ => false,
    };
    task_is && program.threads.len() == 1 && program.sources.len() == 1
}

fn accepted(alloc: Global) -> Result<Accepted, JobAnswer> {
    let program = program(alloc, 2)?;
    checked(alloc, program)
}

fn is_copied(accepted: &Accepted, alloc: Global) -> Result<bool, NoMemory> {
    let copy = accepted.copy(alloc)?;
    Ok(is_the_sum(copy.program()))
}

#[test]
fn an_accepted_program_is_copied(rt: HostRuntime) -> Result<(), Fail> {
    let accepted = accepted(rt.alloc())?;
    assert!(rt; is_copied(&accepted, rt.alloc())?);
    Ok(())
}

#[test]
fn a_queue_of_33_places_is_refused_at_its_line(rt: HostRuntime) -> Result<(), Fail> {
    let fault = JobFault {
        line: 2,
        cause: Cause::OverLimit,
    };
    assert_eq!(rt; refusal_of_queue(rt.alloc(), 33)?, Some(fault));
    Ok(())
}

#[test]
fn a_pipe_of_a_thread_to_itself_is_refused_at_the_header(rt: HostRuntime) -> Result<(), Fail> {
    let fault = JobFault {
        line: 1,
        cause: Cause::BadOwner,
    };
    assert_eq!(rt; refusal_of_looped(rt.alloc())?, Some(fault));
    Ok(())
}
