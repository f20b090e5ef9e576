//! What each actor does in its turn.

ghost use Rattle.std.specs.Prelude.{◌≡◌, ◌+◌, ◌<◌, length};
ghost use Rattle.push_core.specs.Table.{IsLeft, want_of};
ghost use Rattle.source_laws.specs.Rows.{port_of};
ghost use Rattle.never_cut.specs.Entries.{readings_of};
ghost use Rattle.kernel_core.specs.Board.{turn, kernel_turn, clock_turn, source_made, source_turn, source_access, row_of, sides};
ghost use Rattle.kernel_core.specs.Moves.{IsActor};
ghost use Rattle.kernel_core.specs.Made.{made_by, kernel_made, access_made, source_makes, clock_made, accesses_in};
ghost use Rattle.kernel_core.specs.Core.{setup_of};

use crate::board::Core;
use crate::made::{Made, entry_of_point, entry_of_source, nothing_made};
use fram_words::Access;
use ink_base::{Actor, Entry, SourceId};
use sqlite_items::Items;

impl Core {
    pub(super) fn turn(&mut self, actor: Actor) -> Made
        requires known { IsActor (setup_of self.old.job) actor }
        requires begun { 0 < self.old.board.begun }
        requires room { 0 < self.old.room }
        ensures board { self.new.board ≡ turn (setup_of self.old.job) self.old.board actor }
        ensures made { result ≡ made_by (setup_of self.old.job) self.old.board actor }
        ensures job { self.new.job ≡ self.old.job }
        ensures room { self.old.room ≡ self.new.room + accesses_in result }
    {
        match actor {
            Actor::Kernel => self.kernel_turn(),
            Actor::Source(source) => self.source_turn(source),
            Actor::Clock => self.clock_turn(),
        }
    }

    fn kernel_turn(&mut self) -> Made
        requires begun { 0 < self.old.board.begun }
        requires room { 0 < self.old.room }
        ensures board { self.new.board ≡ kernel_turn (setup_of self.old.job) self.old.board }
        ensures made { result ≡ kernel_made (setup_of self.old.job) self.old.board }
        ensures job { self.new.job ≡ self.old.job }
        ensures room { self.old.room ≡ self.new.room + accesses_in result }
    {
        let access = self.kernel.want(&self.plan);
        let word = self.fram.perform(access);
        let point = self.kernel.point(word);
        let entry = entry_of_point(point);
        self.charges[self.begun - 1].note_kernel(entry);
        self.kernel.take(&self.plan, word);
        self.room -= 1;
        Made {
            access: Some(access),
            word,
            entry,
        }
    }

    fn clock_turn(&mut self) -> Made
        requires begun { 0 < self.old.board.begun }
        requires room { 0 < self.old.room }
        ensures board { self.new.board ≡ clock_turn (setup_of self.old.job) self.old.board }
        ensures made { result ≡ clock_made (setup_of self.old.job) self.old.board }
        ensures job { self.new.job ≡ self.old.job }
        ensures room { self.old.room ≡ self.new.room + accesses_in result }
    {
        let access = Access::Add {
            addr: self.plan.layout.clock,
            by: 1,
        };
        let word = self.fram.perform(access);
        self.charges[self.begun - 1].note_tick();
        self.room -= 1;
        Made {
            access: Some(access),
            word,
            entry: Some(Entry::Tick { by: 1 }),
        }
    }

    fn source_turn(&mut self, source: SourceId) -> Made
        requires known { source.0 < length self.old.job.program.sources }
        requires begun { 0 < self.old.board.begun }
        requires room { 0 < self.old.room }
        ensures board { self.new.board ≡ source_turn (setup_of self.old.job) self.old.board source.0 }
        ensures made { result ≡ source_makes (setup_of self.old.job) self.old.board source.0 }
        ensures job { self.new.job ≡ self.old.job }
        ensures room { self.old.room ≡ self.new.room + accesses_in result }
    {
        match self.next_access(source) {
            Some(access) => self.source_made(source, access),
            None => nothing_made(),
        }
    }

    // The access of a source's row; none where it has none left.
    fn next_access(&self, source: SourceId) -> Option<Access>
        requires known { source.0 < length self.now.job.program.sources }
        ensures { result ≡ want_of (port_of (sides (setup_of self.now.job)) source.0) (readings_of self.now.job.readings source.0) (row_of self.now.board source.0) }
    {
        let readings = readings_at(&self.readings, source);
        self.pushers[source.0 as usize].want(readings)
    }

    fn source_made(&mut self, source: SourceId, access: Access) -> Made
        requires known { source.0 < length self.old.job.program.sources }
        requires begun { 0 < self.old.board.begun }
        requires room { 0 < self.old.room }
        requires has_left { IsLeft (length (readings_of self.old.job.readings source.0)) (row_of self.old.board source.0) }
        requires access { access ≡ source_access (setup_of self.old.job) self.old.board source.0 }
        ensures board { self.new.board ≡ source_made (setup_of self.old.job) self.old.board source.0 }
        ensures made { result ≡ access_made (setup_of self.old.job) self.old.board source.0 }
        ensures job { self.new.job ≡ self.old.job }
        ensures room { self.old.room ≡ self.new.room + accesses_in result }
    {
        let i = source.0 as usize;
        let word = self.fram.perform(access);
        let readings = readings_at(&self.readings, source);
        let point = self.pushers[i].take(readings, word);
        let entry = entry_of_source(source, point);
        self.charges[self.begun - 1].note_source(i, entry);
        self.room -= 1;
        Made {
            access: Some(access),
            word,
            entry,
        }
    }
}

// The readings of a source.
fn readings_at(readings: &Items<Items<u32>>, source: SourceId) -> &[u32]
    requires { source.0 < length readings.now }
    ensures { result.now ≡ readings_of readings.now source.0 }
{
    readings.as_slice()[source.0 as usize].as_slice()
}
