//! Runs that were made by hand, and their texts.

ghost use Rattle.std.specs.Prelude.{◌≡◌, [], length, IfOk};

use ink_base::{Entry, NoMemory, Output, SourceId, ThreadId};
use ink_report::{Flags, run_text};
use never_cut::{Model, SourceModel, ThreadModel};
use prog_check::{Accepted, check};
use sqlite_items::Items;
use std::alloc::Global;
use task_isa::{Instr, Lines, Name, Program, Task, ThreadDef};

fn name(alloc: Global) -> Result<Name, NoMemory> {
    Name::new(alloc, b"a")
}

// The flags of a text without bounds and image.
pub(crate) fn flags(journal: bool, json: bool, seed: Option<u32>) -> Flags {
    Flags {
        journal,
        json,
        bounds: false,
        image: false,
        seed,
    }
}

// The flags of a text with bounds.
pub(crate) fn with_bounds(journal: bool, json: bool) -> Flags {
    Flags {
        bounds: true,
        ..flags(journal, json, None)
    }
}

fn threads(alloc: Global) -> Result<Items<ThreadDef>, NoMemory> {
    let mut threads = Items::new(alloc);
    threads.push(ThreadDef {
        name: name(alloc)?,
        priority: 1,
        queue: 2,
        state: 1,
        log: 8,
        expires: None,
    })?;
    Ok(threads)
}

fn tasks(alloc: Global) -> Result<Items<Task>, NoMemory> {
    let mut tasks = Items::new(alloc);
    tasks.push(Task {
        name: name(alloc)?,
        thread: ThreadId(0),
        limit: 100,
        code: Items::from_slice(alloc, &[Instr::Done])?,
    })?;
    Ok(tasks)
}

// A program of one thread with a source for each that is listed.
fn program(alloc: Global, sources: &[ThreadId]) -> Result<Program, NoMemory> {
    Ok(Program {
        threads: threads(alloc)?,
        sources: Items::from_slice(alloc, sources)?,
        pipes: Items::new(alloc),
        timers: Items::new(alloc),
        tasks: tasks(alloc)?,
    })
}

fn accepted(alloc: Global, sources: &[ThreadId]) -> Result<Option<Accepted>, NoMemory> {
    let lines = Lines {
        program: 1,
        threads: Items::new(alloc),
        tasks: Items::new(alloc),
        code: Items::new(alloc),
    };
    match check(program(alloc, sources)?, &lines) {
        Ok(accepted) => Ok(Some(accepted)),
        Err(_) => Ok(None),
    }
}

// A thread that served so many events.
fn thread(alloc: Global, served: u64) -> ThreadModel {
    ThreadModel {
        state: Items::new(alloc),
        running: None,
        event: None,
        first: 0,
        held: Items::new(alloc),
        finished: false,
        released: served,
        served,
        trapped: 0,
        expired: 0,
    }
}

// A source after so many readings.
fn source(next: u32) -> SourceModel {
    SourceModel {
        next,
        accepted: next,
        refused: false,
    }
}

// The state at a tick in which so many events were served, with these sources and outputs.
fn model(
    alloc: Global,
    clock: u64,
    served: u64,
    sources: &[SourceModel],
    outputs: &[Output],
) -> Result<Model, NoMemory>
    ensures threads { IfOk result (λ m. length m.threads ≡ 1) }
    ensures sources { IfOk result (λ m. m.sources ≡ sources.now) }
    ensures outputs { IfOk result (λ m. m.outputs ≡ outputs.now) }
{
    let mut threads = Items::new(alloc);
    threads.push(thread(alloc, served))?;
    Ok(Model {
        threads,
        pipes: Items::new(alloc),
        timers: Items::new(alloc),
        sources: Items::from_slice(alloc, sources)?,
        clock,
        outputs: Items::from_slice(alloc, outputs)?,
        commits: served,
        scan: None,
    })
}

// The text after one reading, which was pushed and served.
fn served_text(alloc: Global, program: &Accepted, flags: Flags) -> Result<Vec<u8>, NoMemory>
    requires threads { length program.now.threads ≡ 1 }
    requires sources { length program.now.sources ≡ 1 }
{
    let output = Output {
        stamp: 1,
        thread: ThreadId(0),
        value: 7,
    };
    let model = model(alloc, 0, 1, &[source(1)], &[output])?;
    let entries = [
        Entry::Push {
            source: SourceId(0),
        },
        Entry::Scan,
        Entry::Commit {
            thread: ThreadId(0),
        },
        Entry::Release {
            thread: ThreadId(0),
        },
    ];
    run_text(alloc, program, &model, &entries, 1, flags)
}

// The text after a reading that was refused and given up.
fn refused_text(alloc: Global, program: &Accepted, flags: Flags) -> Result<Vec<u8>, NoMemory>
    requires threads { length program.now.threads ≡ 1 }
    requires sources { length program.now.sources ≡ 1 }
{
    let model = model(alloc, 0, 0, &[source(1)], &[])?;
    let entries = [
        Entry::Refuse {
            source: SourceId(0),
        },
        Entry::Skip {
            source: SourceId(0),
        },
        Entry::Tick { by: 12 },
        Entry::Look {
            thread: ThreadId(0),
        },
    ];
    run_text(alloc, program, &model, &entries, 12, flags)
}

// The text after the second of two sources pushed a reading.
fn two_sources_text(alloc: Global, program: &Accepted, flags: Flags) -> Result<Vec<u8>, NoMemory>
    requires threads { length program.now.threads ≡ 1 }
    requires sources { length program.now.sources ≡ 2 }
{
    let model = model(alloc, 5, 1, &[source(0), source(1)], &[])?;
    let entries = [Entry::Push {
        source: SourceId(1),
    }];
    run_text(alloc, program, &model, &entries, 2, flags)
}

/// What came of the reading, or of two sources.
#[derive(Clone, Copy)]
pub(crate) enum Run {
    Served,
    Refused,
    TwoSources,
}

// The text of a run of a program that has one thread and as many sources as the run wants; nothing of another program.
fn text_for(
    alloc: Global,
    program: &Accepted,
    run: Run,
    flags: Flags,
) -> Result<Vec<u8>, NoMemory> {
    let parts = program.program();
    match (run, parts.threads.len(), parts.sources.len()) {
        (Run::Served, 1, 1) => served_text(alloc, program, flags),
        (Run::Refused, 1, 1) => refused_text(alloc, program, flags),
        (Run::TwoSources, 1, 2) => two_sources_text(alloc, program, flags),
        _ => Ok(Vec::new(alloc)),
    }
}

fn text_of(alloc: Global, run: Run, flags: Flags) -> Result<Vec<u8>, NoMemory> {
    let sources = [ThreadId(0); 2];
    let count = match run {
        Run::TwoSources => 2,
        _ => 1,
    };
    match accepted(alloc, &sources[..count])? {
        Some(program) => text_for(alloc, &program, run, flags),
        None => Ok(Vec::new(alloc)),
    }
}

pub(crate) fn is_told(alloc: Global, run: Run, flags: Flags, text: &str) -> Result<bool, NoMemory> {
    let told = text_of(alloc, run, flags)?;
    Ok(told.as_slice() == text.as_bytes())
}
