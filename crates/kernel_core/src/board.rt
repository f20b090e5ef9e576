//! The board of a job and its turns.
ghost use Rattle.std.specs.Prelude.{◌≡◌, ◌+◌, ◌<◌, ◌≤◌, [], length, map, vec_capacity};
ghost use Rattle.kernel_core.specs.Board.{first_board, turn, cut};
ghost use Rattle.kernel_core.specs.Stands.{BoardStands};
ghost use Rattle.kernel_core.specs.Moves.{IsActor};
ghost use Rattle.kernel_core.specs.Made.{made_by, accesses_in};
ghost use Rattle.kernel_core.specs.Settling.{RefusalsKeep, SkipsStore};
ghost use Rattle.kernel_core.specs.RunRecords.{RecordStands};
ghost use Rattle.kernel_core.specs.Costed.{PickCosts, CountsDown, PicksCommit};
ghost use Rattle.kernel_core.specs.Listed.{moves};
ghost use Rattle.kernel_core.specs.Settled.{ChargesSettle};
ghost use Rattle.job_parts.specs.Job.{AreFirstWords, IsJob};
ghost use Rattle.kernel_core.specs.kept.Starts.{AreFirstPushers, AreFirstRecords};
ghost use Rattle.kernel_core.specs.kept.Recorded.{emptied};
ghost use Rattle.kernel_core.specs.First.{StandsFirst};
ghost use Rattle.kernel_core.specs.Core.{View, setup_of, turns_in, job_of};
ghost use Rattle.kernel_core.specs.kept.Cores.{IsCore, row_in, charge_in, rebooted};

mod remaining;
mod turns;

use crate::charge_record::ChargeRecord;
use crate::kernel::Kernel;
use crate::made::Made;
use crate::recording::Recording;
use crate::run_record::{RunRecord, finished};
use crate::start::{CoreParts, turns_in, write_first_words};
use fram_words::{Access, Fram};
use ink_base::Actor;
use ink_layout::Plan;
use job_parts::{Charge, Job, Start};
use push_core::{Pusher, Row};
use sqlite_items::Items;
use std::marker::Model;

/// A job's board in its run: the words, the kernel, the sources and the clock, and what each charge leaves behind. In each charge every
/// source has settled as many readings as its accesses are enough for. Contracts see the job, the board, and for how many turns of the
/// charge at hand there is room.
#[derive(Drop)]
pub struct Core {
    plan: Plan,
    readings: Items<Items<u32>>,
    listed: Items<Charge>,
    fram: Fram,
    kernel: Kernel,
    pushers: Vec<Pusher>,
    charges: Vec<Recording>,
    begun: usize,
    room: u64,
    kept: Vec<ChargeRecord>,
    start: Option<Start>,
}

impl Model for Core {
    ghost Value = { View };

    ghost view = { λ c. record { job = job_of c.plan.accepted c.readings c.listed c.start; board = record { words = c.fram; kernel = c.kernel; rows = map row_in c.pushers.items; charges = map charge_in c.charges.items; begun = c.begun }; room = c.room } };

    ghost invariant = { λ c. (IsJob (job_of c.plan.accepted c.readings c.listed c.start) × (c.kept.items ≡ []) × (length c.listed ≤ vec_capacity c.kept)) × IsCore (job_of c.plan.accepted c.readings c.listed c.start) c.plan.layout (record { words = c.fram; kernel = c.kernel; rows = map row_in c.pushers.items; charges = map charge_in c.charges.items; begun = c.begun }) c.room c.pushers.items c.charges.items };
}

impl Core {
    // The core of a job from what it begins with.
    pub(crate) fn begin(parts: CoreParts) -> Core
        requires job { IsJob (job_of parts.plan.accepted parts.readings parts.listed parts.start) }
        requires first { StandsFirst (setup_of (job_of parts.plan.accepted parts.readings parts.listed parts.start)) parts.fram }
        requires pushers { AreFirstPushers parts.plan.accepted (length parts.plan.accepted.sources) parts.pushers.items }
        requires charges { AreFirstRecords (job_of parts.plan.accepted parts.readings parts.listed parts.start) (length parts.listed) parts.charges.items }
        requires empty { parts.kept.items ≡ [] }
        requires space { length parts.listed ≤ vec_capacity parts.kept }
        ensures job { result.job ≡ job_of parts.plan.accepted parts.readings parts.listed parts.start }
        ensures words { result.board.words ≡ parts.fram }
        ensures board { result.board ≡ first_board (setup_of (job_of parts.plan.accepted parts.readings parts.listed parts.start)) parts.fram (length parts.listed) }
    {
        let CoreParts {
            plan,
            readings,
            listed,
            fram,
            pushers,
            charges,
            kept,
            start,
        } = parts;
        Core {
            plan,
            readings,
            listed,
            fram,
            kernel: Kernel::boot(),
            pushers,
            charges,
            begun: 0,
            room: 0,
            kept,
            start,
        }
    }

    /// What the board leaves behind: the job, what each charge recorded, and the words as they stand, which stand for the never-cut
    /// kernel after the record's journal and are an image of the program. It takes no memory.
    pub fn into_record(self) -> RunRecord
        ensures job { result.job ≡ self.job }
        ensures charges { result.charges ≡ self.board.charges }
        ensures words { result.words ≡ self.board.words }
        ensures stands { RecordStands result }
        ensures settled { ChargesSettle result.job.program result.charges }
    {
        let Core {
            plan,
            readings,
            listed,
            fram,
            kernel: _,
            pushers: _,
            charges,
            begun: _,
            room: _,
            kept,
            start,
        } = self;
        let Plan {
            accepted,
            layout: _,
        } = plan;
        RunRecord {
            job: Job::new(accepted, readings, listed, start),
            charges: finished(charges, kept),
            words: Items::from_vec(fram.into_words()),
        }
    }

    /// The board as it was before its first charge, in the memory that is there: the words with which its run began, all registers lost, and no
    /// charge begun. So the job can be run again. It takes no memory.
    pub fn begin_again(&mut self)
        ensures image { AreFirstWords self.new.job.program self.new.job.start self.new.board.words }
        ensures board { self.new.board ≡ first_board (setup_of self.old.job) self.new.board.words (length self.old.job.charges) }
        ensures stands { BoardStands (setup_of self.new.job) self.new.board }
        ensures job { self.new.job ≡ self.old.job }
    {
        self.forget_run();
        self.stands();
    }

    fn forget_run(&mut self)
        ensures image { AreFirstWords self.new.job.program self.new.job.start self.new.board.words }
        ensures board { self.new.board ≡ first_board (setup_of self.old.job) self.new.board.words (length self.old.job.charges) }
        ensures job { self.new.job ≡ self.old.job }
    {
        write_first_words(&mut self.fram, &self.plan, &self.start);
        self.kernel = Kernel::boot();
        lose_rows(&mut self.pushers);
        clear_records(&mut self.charges);
        self.begun = 0;
        self.room = 0;
    }

    // The charges that the job lists.
    pub(crate) fn listed(&self) -> &[Charge]
        ensures same { result.now ≡ self.now.job.charges }
        ensures job { IsJob self.now.job }
    {
        self.listed.as_slice()
    }

    /// The words of the board, which stand for the never-cut kernel after the journal so far.
    pub fn words(&self) -> &Fram
        ensures words { result.now ≡ self.now.board.words }
        ensures stands { BoardStands (setup_of self.now.job) self.now.board }
    {
        self.stands();
        &self.fram
    }

    /// The next access of the actor, with the word that it finds and the entry that it adds to the journal. A source whose boot is over
    /// and whose readings are all settled makes none, and nothing changes then. Only an access takes of the room for turns.
    pub fn step(&mut self, actor: Actor) -> Made
        requires known { IsActor (setup_of self.old.job) actor }
        requires begun { 0 < self.old.board.begun }
        requires room { 0 < self.old.room }
        ensures board { self.new.board ≡ turn (setup_of self.old.job) self.old.board actor }
        ensures made { result ≡ made_by (setup_of self.old.job) self.old.board actor }
        ensures stands { BoardStands (setup_of self.new.job) self.new.board }
        ensures job { self.new.job ≡ self.old.job }
        ensures room { self.old.room ≡ self.new.room + accesses_in result }
        ensures settled { ChargesSettle self.new.job.program self.new.board.charges }

        // A scan that has ended with a pick is followed by as many accesses of the kernel as its service costs, the commit being the last.
        ensures picked { PickCosts (setup_of self.new.job) self.new.board }
        ensures counts { CountsDown (setup_of self.old.job) self.old.board actor self.new.board }

        // What the entry tells of the words: a push that is refused leaves them all, its skip changes SRC of its source alone.
        ensures refused { RefusalsKeep result self.old.board.words self.new.board.words }
        ensures skipped { SkipsStore (setup_of self.old.job) result self.old.board.words self.new.board.words }
    {
        self.counts_down(actor);
        let made = self.turn(actor);
        self.stands();
        made
    }

    /// All registers are lost, CLOCK grows by the ticks that went by in the dark, and the next charge begins, with their entry and with
    /// room for the turns that the job lists for it.
    pub fn cut(&mut self, off: u32)
        requires { self.old.board.begun < length self.old.job.charges }
        ensures board { self.new.board ≡ cut (setup_of self.old.job) self.old.board off }
        ensures stands { BoardStands (setup_of self.new.job) self.new.board }
        ensures job { self.new.job ≡ self.old.job }
        ensures room { self.new.room ≡ turns_in self.old.job self.old.board.begun }
        ensures settled { ChargesSettle self.new.job.program self.new.board.charges }
    {
        self.begin_charge(off);
        self.stands();
    }

    fn begin_charge(&mut self, off: u32)
        requires { self.old.board.begun < length self.old.job.charges }
        ensures board { self.new.board ≡ cut (setup_of self.old.job) self.old.board off }
        ensures job { self.new.job ≡ self.old.job }
        ensures room { self.new.room ≡ turns_in self.old.job self.old.board.begun }
    {
        let access = Access::Add {
            addr: self.plan.layout.clock,
            by: off as u64,
        };
        self.fram.perform(access);
        self.kernel = Kernel::boot();
        lose_rows(&mut self.pushers);
        self.charges[self.begun].begin(off);
        self.room = turns_in(self.listed.as_slice(), self.begun);
        self.begun += 1;
    }

    // The journal is legal, the words stand for the never-cut kernel after it, each charge has settled enough, and a pick costs what it means.
    pub(crate) fn stands(&self)
        ensures stands { BoardStands (setup_of self.now.job) self.now.board }
        ensures settled { ChargesSettle self.now.job.program self.now.board.charges }
        ensures picked { PickCosts (setup_of self.now.job) self.now.board }
    {
        let _begun = self.begun;
    }

    // What the next turn of an actor leaves of a service.
    fn counts_down(&self, actor: Actor)
        requires known { IsActor (setup_of self.now.job) actor }
        requires room { 0 < self.now.room }
        ensures { CountsDown (setup_of self.now.job) self.now.board actor (turn (setup_of self.now.job) self.now.board actor) }
    {
        let _room = self.room;
    }

    // When each pick commits in the run that the job lists.
    pub(crate) fn commits(&self)
        requires { self.now.board.begun ≡ 0 }
        ensures { PicksCommit (setup_of self.now.job) self.now.board (moves self.now.job.charges) }
    {
        let _begun = self.begun;
    }
}

// Each source goes back to the first row of its table.
fn lose_rows(pushers: &mut Vec<Pusher>)
    ensures { pushers.new.items ≡ map rebooted pushers.old.items }
{
    for pusher in pushers.iter_mut() {
        pusher.row = Row::first();
    }
}

// Each record goes back to that of a charge that has not begun.
fn clear_records(charges: &mut Vec<Recording>)
    ensures { charges.new.items ≡ map emptied charges.old.items }
{
    for charge in charges.iter_mut() {
        charge.clear();
    }
}
