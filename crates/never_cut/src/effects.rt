//! What an entry makes of a state.

ghost use Rattle.std.specs.Prelude.{◌≡◌, ◌+◌, ◌<◌, ◌^◌, ◌∷◌, ◌++◌, [], length, slice_index, slice_set, IfOk, Some};
ghost use Rattle.prog_check.specs.Accepted.{IsAccepted};
ghost use Rattle.never_cut.specs.State.{no_thread, thread_of};
ghost use Rattle.never_cut.specs.Entries.{Legal, effect, looked, next_event, pushed, readings_of, released};
ghost use Rattle.never_cut.specs.Within.{AreReadings, HasRoom};
ghost use Rattle.never_cut.specs.Replaying.{model_of};

use crate::replaying::Replaying;
use crate::scan_model::ScanModel;
use crate::source_model::SourceModel;
use crate::thread_model::ThreadModel;
use ink_base::{Entry, Event, NoMemory, Origin, SourceId, ThreadId};
use sqlite_items::Items;
use std::alloc::Global;
use task_isa::Program;

impl Replaying {
    /// Makes the effect of a legal entry.
    pub(crate) fn apply(
        &mut self,
        alloc: Global,
        program: &Program,
        readings: &[Items<u32>],
        entry: Entry,
    ) -> Result<(), NoMemory>
        requires accepted { IsAccepted program.now }
        requires readings { AreReadings program.now readings.now }
        requires room { HasRoom program.now (model_of self.old) }
        requires legal { Legal program.now readings.now (model_of self.old) entry }
        ensures { IfOk result (λ _. model_of self.new ≡ effect program.now readings.now (model_of self.old) entry) }
    {
        match entry {
            Entry::Push { source } => self.push(program, readings, source)?,
            Entry::Refuse { source } => self.refuse(program, source),
            Entry::Skip { source } => self.skip(program, source),
            Entry::Tick { by } => self.tick(by),
            Entry::Scan => self.begin_scan(alloc),
            Entry::Look { thread } => self.look(program, thread)?,
            Entry::Commit { thread } => self.commit(alloc, program, thread)?,
            Entry::Release { thread } => self.release(program, thread),
        }
        Ok(())
    }

    pub(crate) fn push(
        &mut self,
        program: &Program,
        readings: &[Items<u32>],
        source: SourceId,
    ) -> Result<(), NoMemory>
        requires accepted { IsAccepted program.now }
        requires readings { AreReadings program.now readings.now }
        requires room { HasRoom program.now (model_of self.old) }
        requires there { source.0 < length program.now.sources }
        ensures { IfOk result (λ _. model_of self.new ≡ effect program.now readings.now (model_of self.old) (Entry.Push source)) }
    {
        let i = usize::from(source.0);
        let event = self.next_event(readings, source);
        let s = self.source(i);
        self.hold(usize::from(program.sources.as_slice()[i].0), event)?;
        self.sources[i] = SourceModel {
            next: s.next + 1,
            accepted: s.accepted + 1,
            refused: false,
        };
        Ok(())
    }

    fn next_event(&self, readings: &[Items<u32>], source: SourceId) -> Event
        ensures { result ≡ next_event readings.now (model_of self.now) source.0 }
    {
        let s = self.source(usize::from(source.0));
        Event {
            origin: Origin::Source {
                source,
                count: (s.accepted % 64) as u8,
            },
            value: reading(readings, usize::from(source.0), s.next),
        }
    }

    /// Adds an event to the queue of a thread.
    fn hold(&mut self, t: usize, event: Event) -> Result<(), NoMemory>
        requires { t < length self.old.threads.items }
        ensures { IfOk result (λ _. model_of self.new ≡ record (model_of self.old) {
          threads = slice_set self.old.threads.items t (pushed event (thread_of (model_of self.old) t));
        }) }
    {
        let thread = &mut self.threads[t];
        thread.held.push(event)?;
        Ok(())
    }

    pub(crate) fn refuse(&mut self, program: &Program, source: SourceId)
        requires room { HasRoom program.now (model_of self.old) }
        requires there { source.0 < length program.now.sources }
        ensures { model_of self.new ≡ effect program.now [] (model_of self.old) (Entry.Refuse source) }
    {
        let i = usize::from(source.0);
        let s = self.source(i);
        self.sources[i] = SourceModel { refused: true, ..s };
    }

    pub(crate) fn skip(&mut self, program: &Program, source: SourceId)
        requires room { HasRoom program.now (model_of self.old) }
        requires there { source.0 < length program.now.sources }
        ensures { model_of self.new ≡ effect program.now [] (model_of self.old) (Entry.Skip source) }
    {
        let i = usize::from(source.0);
        let s = self.source(i);
        self.sources[i] = SourceModel {
            next: s.next + 1,
            refused: false,
            ..s
        };
    }

    pub(crate) fn tick(&mut self, by: u64)
        requires { self.old.clock + by < 2 ^ 47 }
        ensures { model_of self.new ≡ record (model_of self.old) { clock = self.old.clock + by } }
    {
        self.clock += by;
    }

    pub(crate) fn begin_scan(&mut self, alloc: Global)
        ensures { model_of self.new ≡ record (model_of self.old) { scan = Some (record { time = self.old.clock; looked = [] }) } }
    {
        match &mut self.scan {
            Some(scan) => {
                scan.time = self.clock;
                clear(&mut scan.looked);
            }
            None => {
                self.scan = Some(ScanModel {
                    time: self.clock,
                    looked: Items::new(alloc),
                });
            }
        }
    }

    pub(crate) fn look(&mut self, program: &Program, thread: ThreadId) -> Result<(), NoMemory>
        ensures { IfOk result (λ _. model_of self.new ≡ effect program.now [] (model_of self.old) (Entry.Look thread)) }
    {
        if let Some(scan) = &mut self.scan {
            scan.looked.push(thread)?;
        }
        Ok(())
    }

    pub(crate) fn release(&mut self, program: &Program, thread: ThreadId)
        requires room { HasRoom program.now (model_of self.old) }
        requires there { thread.0 < length program.now.threads }
        ensures { model_of self.new ≡ effect program.now [] (model_of self.old) (Entry.Release thread) }
    {
        let thread = &mut self.threads[usize::from(thread.0)];
        release_first(thread);
    }
}

/// Takes all threads out of a list, which keeps its memory.
fn clear(list: &mut Items<ThreadId>)
    ensures { list.new ≡ [] }
{
    while list.pop().is_some() {}
}

fn release_first(thread: &mut ThreadModel)
    requires { thread.old.released < 2 ^ 32 }
    ensures { thread.new ≡ released thread.old }
{
    if !thread.held.is_empty() {
        thread.held.remove(0);
    }
    thread.released += 1;
    thread.finished = false;
}

/// A reading of a source, 0 where there is none.
fn reading(readings: &[Items<u32>], i: usize, number: u32) -> u32
    ensures { result ≡ slice_index (readings_of readings.now i) number }
{
    match readings.get(i) {
        Some(list) => list.as_slice().get(number as usize).copied().unwrap_or(0),
        None => 0,
    }
}
