//! Whether an entry is legal.

ghost use Rattle.std.specs.Prelude.{◌≡◌, ◌+◌, ◌^◌, ◌<◌, ◌↔◌, [], length, IsTrue};
ghost use Rattle.prog_check.specs.Accepted.{IsAccepted};
ghost use Rattle.prog_check.specs.Lookup.{thread_def};
ghost use Rattle.never_cut.specs.Entries.{ArePassed, HasReading, IsPassed, Legal, MayLook, held_for, places_for};
ghost use Rattle.never_cut.specs.Within.{AreReadings, HasRoom};
ghost use Rattle.never_cut.specs.Replaying.{model_of};

use crate::pending::was_looked_at;
use crate::replaying::Replaying;
use crate::scan_model::ScanModel;
use ink_base::{Entry, SourceId, ThreadId};
use sqlite_items::Items;
use task_isa::Program;

impl Replaying {
    /// Whether an entry is legal in this state.
    pub(crate) fn may(&self, program: &Program, readings: &[Items<u32>], entry: Entry) -> bool
        requires accepted { IsAccepted program.now }
        requires readings { AreReadings program.now readings.now }
        requires room { HasRoom program.now (model_of self.now) }
        ensures { IsTrue result ↔ Legal program.now readings.now (model_of self.now) entry }
    {
        match entry {
            Entry::Push { source } => self.may_push(program, readings, source),
            Entry::Refuse { source } => self.may_refuse(program, readings, source),
            Entry::Skip { source } => self.may_skip(program, source),
            Entry::Tick { by } => self.may_tick(by),
            Entry::Scan => self.may_scan(program),
            Entry::Look { thread } => self.may_look(program, thread),
            Entry::Commit { thread } => self.may_commit(program, thread),
            Entry::Release { thread } => self.may_release(program, thread),
        }
    }

    fn may_push(&self, program: &Program, readings: &[Items<u32>], source: SourceId) -> bool
        requires accepted { IsAccepted program.now }
        requires readings { AreReadings program.now readings.now }
        requires room { HasRoom program.now (model_of self.now) }
        ensures { IsTrue result ↔ Legal program.now readings.now (model_of self.now) (Entry.Push source) }
    {
        let i = usize::from(source.0);
        i < program.sources.len()
            && self.has_reading(readings, i)
            && self.held_for(program, i) < places_for(program, i)
    }

    fn may_refuse(&self, program: &Program, readings: &[Items<u32>], source: SourceId) -> bool
        requires accepted { IsAccepted program.now }
        requires readings { AreReadings program.now readings.now }
        requires room { HasRoom program.now (model_of self.now) }
        ensures { IsTrue result ↔ Legal program.now readings.now (model_of self.now) (Entry.Refuse source) }
    {
        let i = usize::from(source.0);
        i < program.sources.len()
            && self.has_reading(readings, i)
            && self.held_for(program, i) == places_for(program, i)
    }

    fn may_skip(&self, program: &Program, source: SourceId) -> bool
        ensures { IsTrue result ↔ Legal program.now [] (model_of self.now) (Entry.Skip source) }
    {
        let i = usize::from(source.0);
        i < program.sources.len() && self.source(i).refused
    }

    fn may_tick(&self, by: u64) -> bool
        requires { self.now.clock < 2 ^ 47 }
        ensures { IsTrue result ↔ (self.now.clock + by < 2 ^ 47) }
    {
        by < (1 << 47) - self.clock
    }

    fn may_scan(&self, program: &Program) -> bool
        requires room { HasRoom program.now (model_of self.now) }
        ensures { IsTrue result ↔ Legal program.now [] (model_of self.now) Entry.Scan }
    {
        for t in 0..program.threads.len() {
            if self.thread(t).finished {
                return false;
            }
        }
        true
    }

    fn may_look(&self, program: &Program, thread: ThreadId) -> bool
        requires room { HasRoom program.now (model_of self.now) }
        ensures { IsTrue result ↔ Legal program.now [] (model_of self.now) (Entry.Look thread) }
    {
        let t = usize::from(thread.0);
        match &self.scan {
            None => false,
            Some(scan) => t < program.threads.len() && self.may_look_in(scan, t),
        }
    }

    fn may_look_in(&self, scan: &ScanModel, t: usize) -> bool
        requires { t < length self.now.threads.items }
        ensures { IsTrue result ↔ MayLook (model_of self.now) scan.now t }
    {
        let thread = self.thread(t);
        !was_looked_at(scan.looked.as_slice(), t)
            && thread.running.is_none()
            && thread.held.is_empty()
    }

    fn may_commit(&self, program: &Program, thread: ThreadId) -> bool
        requires accepted { IsAccepted program.now }
        requires room { HasRoom program.now (model_of self.now) }
        ensures { IsTrue result ↔ Legal program.now [] (model_of self.now) (Entry.Commit thread) }
    {
        let t = usize::from(thread.0);
        match &self.scan {
            None => false,
            Some(scan) => {
                t < program.threads.len()
                    && self.are_passed(program, scan, t)
                    && self.pending(program, t).is_some()
            }
        }
    }

    /// Whether a scan has passed every thread of a higher priority.
    fn are_passed(&self, program: &Program, scan: &ScanModel, t: usize) -> bool
        requires accepted { IsAccepted program.now }
        requires room { HasRoom program.now (model_of self.now) }
        requires thread { t < length program.now.threads }
        ensures { IsTrue result ↔ ArePassed program.now (model_of self.now) scan.now t }
    {
        let priority = priority_of(program, t);
        for u in 0..program.threads.len() {
            if priority < priority_of(program, u) && !self.is_passed(program, scan, u) {
                return false;
            }
        }
        true
    }

    fn is_passed(&self, program: &Program, scan: &ScanModel, t: usize) -> bool
        requires accepted { IsAccepted program.now }
        requires room { HasRoom program.now (model_of self.now) }
        requires thread { t < length program.now.threads }
        ensures { IsTrue result ↔ IsPassed program.now (model_of self.now) scan.now t }
    {
        was_looked_at(scan.looked.as_slice(), t)
            && self.thread(t).running.is_none()
            && self.later_event(program, t, scan.time).is_none()
    }

    fn may_release(&self, program: &Program, thread: ThreadId) -> bool
        requires room { HasRoom program.now (model_of self.now) }
        ensures { IsTrue result ↔ Legal program.now [] (model_of self.now) (Entry.Release thread) }
    {
        let t = usize::from(thread.0);
        t < program.threads.len() && self.thread(t).finished
    }

    fn has_reading(&self, readings: &[Items<u32>], i: usize) -> bool
        requires { i < length readings.now }
        ensures { IsTrue result ↔ HasReading readings.now (model_of self.now) i }
    {
        (self.source(i).next as usize) < readings[i].len()
    }

    /// How many events the queue of a source's thread holds.
    fn held_for(&self, program: &Program, i: usize) -> usize
        requires accepted { IsAccepted program.now }
        requires room { HasRoom program.now (model_of self.now) }
        requires source { i < length program.now.sources }
        ensures { result ≡ held_for program.now (model_of self.now) i }
    {
        self.thread(usize::from(program.sources.as_slice()[i].0))
            .held
            .len()
    }
}

/// How many places the queue of a source's thread has.
fn places_for(program: &Program, i: usize) -> usize
    requires accepted { IsAccepted program.now }
    requires source { i < length program.now.sources }
    ensures { result ≡ places_for program.now i }
{
    let t = usize::from(program.sources.as_slice()[i].0);
    usize::from(program.threads.as_slice()[t].queue)
}

fn priority_of(program: &Program, t: usize) -> u8
    requires { t < length program.now.threads }
    ensures { result ≡ (thread_def program.now t).priority }
{
    program.threads.as_slice()[t].priority
}
