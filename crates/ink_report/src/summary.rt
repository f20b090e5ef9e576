//! What a text tells of a run, in numbers.

ghost use Rattle.std.specs.Prelude.{◌≡◌, ℕ, ◌<◌, ◌≤◌, List, [], ◌++◌, map, length, IfOk};
ghost use Rattle.std.specs.List.{range_with_len};
ghost use Rattle.ink_base.specs.declared.entry.Entry.{Entry};
ghost use Rattle.task_isa.specs.declared.program.Program.{Program};
ghost use Rattle.never_cut.specs.declared.model.Model.{Model};
ghost use Rattle.ink_report.specs.Conditions.{FitsProgram};
ghost use Rattle.ink_report.specs.Summary.{thread_summary, source_summary, summary_of, HasRoom, HasRoomFor};
ghost use Rattle.ink_report.specs.kept.Noted.{with_more, noted};

use ink_base::limits::SOURCES;
use ink_base::{Entry, NoMemory, SourceId};
use never_cut::Model;
use prog_check::Accepted;
use sqlite_items::Items;
use std::alloc::Global;
use task_isa::{Name, Program};

/// What is told of a thread: its name, how many of its services ended in each way, and how many events of its queue aren't released.
#[derive(Drop)]
pub struct ThreadSummary {
    pub name: Name,
    pub served: u64,
    pub trapped: u64,
    pub expired: u64,
    pub held: u64,
}

/// What is told of a source: its next reading, how many readings it pushed, and how often it found its queue full.
#[derive(Clone, Copy)]
pub struct SourceSummary {
    pub source: SourceId,
    pub next: u32,
    pub pushed: u64,
    pub refused: u64,
}

/// What a text tells of a run, in numbers: its threads and sources in order, the tick and the commits at its end, and its charges. Lines
/// and JSON alike are texts of a summary.
#[derive(Drop)]
pub struct Summary {
    pub threads: Items<ThreadSummary>,
    pub sources: Items<SourceSummary>,
    pub clock: u64,
    pub commits: u64,
    pub charges: u32,
}

impl Summary {
    /// The summary of a state in which a run of so many charges ended, with no entry counted yet. The state has as many threads and
    /// sources as the program, and its outputs name threads of it. Out of memory may be answered at any time.
    pub fn begin(
        alloc: Global,
        program: &Accepted,
        model: &Model,
        charges: u32,
    ) -> Result<Summary, NoMemory>
        requires { FitsProgram program.now model.now }
        ensures { IfOk result (λ summary. summary ≡ summary_of program.now model.now [] charges) }
    {
        let program = program.program();
        Ok(Summary {
            threads: threads_at(alloc, program, model)?,
            sources: sources_at(alloc, program, model)?,
            clock: model.clock,
            commits: model.commits,
            charges,
        })
    }

    /// Counts these entries behind those that were counted so far. No count of a source comes to 2^64 by so many entries.
    pub fn count(&mut self, entries: &[Entry])
        requires { HasRoomFor (length entries.now) self.old }
        ensures { (program : Program) → (m : Model) → (journal : List Entry) → (charges : ℕ) → self.old ≡ summary_of program m journal charges → self.new ≡ summary_of program m (journal ++ entries.now) charges }
    {
        for entry in entries {
            self.note(*entry);
        }
    }

    fn note(&mut self, entry: Entry)
        requires { HasRoomFor 1 self.old }
        ensures { self.new ≡ noted entry self.old }
    {
        match entry {
            Entry::Push { source } => self.add(source, 1, 0),
            Entry::Refuse { source } => self.add(source, 0, 1),
            _ => {}
        }
    }

    // Adds to the counts of a source, if it is among those that are told of.
    fn add(&mut self, source: SourceId, pushed: u64, refused: u64)
        requires { HasRoom pushed refused self.old }
        ensures { self.new ≡ with_more source.0 pushed refused self.old }
    {
        let i = source.0 as usize;
        if i < self.sources.len() {
            let told = self.sources.as_slice()[i];
            let more = SourceSummary {
                pushed: told.pushed + pushed,
                refused: told.refused + refused,
                ..told
            };
            self.sources.set(i, more);
        }
    }
}

fn threads_at(
    alloc: Global,
    program: &Program,
    model: &Model,
) -> Result<Items<ThreadSummary>, NoMemory>
    requires { length model.now.threads ≡ length program.now.threads }
    ensures { IfOk result (λ threads. threads ≡ map (thread_summary program.now model.now) (range_with_len 0 (length program.now.threads))) }
{
    let mut threads = Items::new(alloc);
    for t in 0..program.threads.len() {
        threads.push(thread_at(alloc, program, model, t)?)?;
    }
    Ok(threads)
}

fn thread_at(
    alloc: Global,
    program: &Program,
    model: &Model,
    t: usize,
) -> Result<ThreadSummary, NoMemory>
    requires known { t < length program.now.threads }
    requires there { t < length model.now.threads }
    ensures { IfOk result (λ thread. thread ≡ thread_summary program.now model.now t) }
{
    let state = &model.threads.as_slice()[t];
    Ok(ThreadSummary {
        name: program.threads.as_slice()[t].name.copy(alloc)?,
        served: state.served,
        trapped: state.trapped,
        expired: state.expired,
        held: state.held.len() as u64,
    })
}

fn sources_at(
    alloc: Global,
    program: &Program,
    model: &Model,
) -> Result<Items<SourceSummary>, NoMemory>
    requires few { length program.now.sources ≤ SOURCES }
    requires there { length model.now.sources ≡ length program.now.sources }
    ensures { IfOk result (λ sources. sources ≡ map (source_summary model.now []) (range_with_len 0 (length program.now.sources))) }
{
    let mut sources = Items::new(alloc);
    for i in 0..program.sources.len() {
        sources.push(source_at(model, i))?;
    }
    Ok(sources)
}

fn source_at(model: &Model, i: usize) -> SourceSummary
    requires few { i < SOURCES }
    requires there { i < length model.now.sources }
    ensures { result ≡ source_summary model.now [] i }
{
    SourceSummary {
        source: SourceId(i as u8),
        next: model.sources.as_slice()[i].next,
        pushed: 0,
        refused: 0,
    }
}
