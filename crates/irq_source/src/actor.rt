//! A source as an actor.
use crate::access::make_access;
use crate::gate::Gate;
use crate::lists::{Declined, Lists, Published};
use event_queue::{Note, QueueSet, SourceSeat};
use ink_base::{Actor, NoMemory};
use push_core::{Port, Pusher};
use std::alloc::Global;
use std::marker::Model;

/// A source with its own word SRC, its seat at the queues, its readings, and its lists of published and refused readings. Contracts see its
/// place in the table of accesses, SRC, the calls of its seat and the lists, and how many charges have begun, out of how many.
#[derive(Drop)]
pub struct SourceActor {
    pusher: Pusher,
    src: u64,
    seat: SourceSeat,
    readings: Vec<u32>,
    lists: Lists,
    begun: u32,
    charges: u32,
}

/// How many accesses were made.
#[derive(Clone, Copy, Debug, PartialEq, Eq)]
pub struct Spent {
    pub steps: u32,
}

/// What an actor leaves: its seat, its word SRC, and its published and refused readings in order.
#[derive(Drop)]
pub struct SourceParts {
    pub seat: SourceSeat,
    pub src: u64,
    pub accepted: Vec<Published>,
    pub refused: Vec<Declined>,
}

impl Model for SourceActor {
    ghost use Rattle.irq_source.specs.Acting.{Acting, acting};
    ghost use Rattle.irq_source.specs.kept.Actors.{IsActor};

    ghost Value = { Acting };

    ghost view = { λ s. acting s.pusher s.src s.seat s.readings.items s.lists s.begun s.charges };

    ghost invariant = { λ s. IsActor s.pusher s.src s.seat s.readings.items s.lists s.begun s.charges };
}

impl SourceActor {
    ghost use Rattle.std.specs.Prelude.{◌≡◌, ◌≤◌, ◌<◌, ◌+◌, ◌-◌, ◌↔◌, [], true, false, length, IfOk};
    ghost use Rattle.push_core.specs.Table.{phase_of, IsPort, IsLeft, IsSettled, IsFew};
    ghost use Rattle.event_queue.specs.Views.{calls_of, source_told};
    ghost use Rattle.event_queue.specs.Seats.{view, IsSeatOf, IsSameSeat, IsNoteOf, Noted, HearsAsSource};
    ghost use Rattle.irq_source.specs.Account.{IsWithin};
    ghost use Rattle.irq_source.specs.Acting.{first_place, knows, rebooted, IsAccounted, IsPortOf, IsSame};
    ghost use Rattle.irq_source.specs.Known.{Added, KnowsItsPlace, settled_of};
    ghost use Rattle.irq_source.specs.Pace.{SettlesEnough};
    ghost use Rattle.irq_source.specs.Rows.{Grows, Leads, LeadsOne};
    ghost use Rattle.irq_source.specs.kept.Paces.{PacesOne};
    ghost use Rattle.irq_source.specs.kept.Stands.{Stands};

    /// A source before its first charge, out of so many, with a seat that has made no call. Its memory is taken here: as many places for
    /// published readings as there are readings, and one more for refused readings for each charge, since a cut before its skip lets a
    /// reading be refused again.
    pub fn new(
        alloc: Global,
        port: Port,
        seat: SourceSeat,
        readings: Vec<u32>,
        charges: u32,
    ) -> Result<SourceActor, NoMemory>
        requires port { IsPort port × IsPortOf port seat }
        requires seat { calls_of (view seat) ≡ [] }
        requires few { IsFew readings.items }
        ensures source { IfOk result (λ a. (a.port ≡ port) × (a.seat ≡ seat) × (a.readings ≡ readings.items)) }
        ensures charges { IfOk result (λ a. (a.charges ≡ charges) × (a.begun ≡ 0)) }
        ensures place { IfOk result (λ a. a.place ≡ first_place) }
    {
        let number = readings.len();
        let lists = Lists::new(alloc, number, number + charges as usize)?;
        Ok(SourceActor {
            pusher: Pusher::boot(port),
            src: 0,
            seat,
            readings,
            lists,
            begun: 0,
            charges,
        })
    }

    /// The next charge begins: the source loses its place in the table. SRC, what its seat knows and its lists stay.
    pub fn cut(&mut self)
        requires charge { self.old.begun < self.old.charges }
        ensures same { IsSame self.old self.new }
        ensures seat { self.new.seat ≡ self.old.seat }
        ensures begun { self.new.begun ≡ self.old.begun + 1 }
        ensures place { self.new.place ≡ rebooted self.old.place }
    {
        self.pusher = Pusher::boot(self.pusher.port);
        self.begun += 1;
    }

    /// A note of what the source's seat knows.
    pub fn note(&mut self, set: &QueueSet) -> Note
        requires { IsSeatOf set.now self.old.seat }
        ensures same { IsSame self.old self.new × (self.new.begun ≡ self.old.begun) }
        ensures seat { IsSameSeat self.old.seat self.new.seat }
        ensures calls { calls_of (view self.new.seat) ≡ calls_of (view self.old.seat) }
        ensures place { self.new.place ≡ self.old.place }
        ensures note { Noted set.now (source_told (view self.old.seat) self.old.seat.source.0) result }
    {
        self.seat.note(set)
    }

    /// Takes in what a note tells.
    pub fn hear(&mut self, set: &QueueSet, note: Note)
        requires seat { IsSeatOf set.now self.old.seat }
        requires note { IsNoteOf set.now note }
        ensures same { IsSame self.old self.new × (self.new.begun ≡ self.old.begun) }
        ensures seat { HearsAsSource note self.old.seat self.new.seat }
        ensures place { self.new.place ≡ self.old.place }
    {
        self.seat.hear(set, note);
    }

    #[tactic(auto, using(crate::proofs::Accounts::told_within))]
    /// The seat, the word SRC and the two lists. They are its account, which stays within its readings. A reading is refused at most once,
    /// and once more for each charge that cut the source before its skip.
    pub fn into_parts(self) -> SourceParts
        ensures seat { result.seat ≡ self.seat }
        ensures src { result.src ≡ self.place.src }
        ensures lists { (result.accepted.items ≡ self.place.accepted) × (result.refused.items ≡ self.place.refused) }
        ensures account { IsAccounted self }
        ensures within { IsWithin (length self.readings) self.place.src (length (knows self).mine) }
        ensures few { length result.refused.items ≤ length self.readings + self.begun }
    {
        let SourceActor {
            seat,
            src,
            lists,
            ..
        } = self;
        let (accepted, refused) = lists.into_vecs();
        SourceParts {
            seat,
            src,
            accepted,
            refused,
        }
    }

    /// An access is left.
    fn is_left(&self) -> bool
        ensures left { (result ≡ true) ↔ IsLeft (length self.now.readings) self.now.place.row }
        ensures settled { (result ≡ false) → IsSettled (length self.now.readings) self.now.place.row }
    {
        self.pusher.want(self.readings.as_slice()).is_some()
    }

    /// How many readings it has published.
    fn published(&self) -> u32
        ensures { result ≡ length self.now.place.accepted }
    {
        self.lists.published()
    }

    /// Makes the next access.
    fn step(&mut self, set: &QueueSet)
        requires seat { IsSeatOf set.now self.old.seat }
        requires begun { 0 < self.old.begun }
        requires left { IsLeft (length self.old.readings) self.old.place.row }
        ensures seat { IsSeatOf set.now self.new.seat }
        ensures same { IsSame self.old self.new × (self.new.begun ≡ self.old.begun) }
        ensures leads { LeadsOne self.old.port self.old.readings (self.old.begun - 1) self.old.place self.new.place }
        ensures added { Added (knows self.old) (knows self.new) }
        ensures settles { settled_of self.old.place.src (knows self.old) ≤ settled_of self.new.place.src (knows self.new) }
        ensures stands { Stands self.new.port (length self.new.readings) self.new.place.src (knows self.new) self.new.place.row }
        ensures paces { PacesOne self.old.port.queue.places self.old.place.row.stage self.new.place.row.stage self.old.place.src self.new.place.src (knows self.old) (knows self.new) }
        ensures grows { Grows self.old.port.queue.places (knows self.old).gone (self.old.begun - 1) self.old.place self.new.place }
        ensures account { IsAccounted self.new }
    {
        let row = self.pusher.row;
        let readings = self.readings.as_slice();
        let word = make_access(
            set,
            &mut self.seat,
            &self.pusher.port,
            readings,
            row,
            &mut self.src,
        );
        let point = self.pusher.take(readings, word);
        self.lists.note(readings, row, point, self.begun - 1);
    }

    /// Makes so many accesses in the charge at hand, and passes the gate before each. `steps` is the budget, or is smaller only where all
    /// readings are settled.
    pub fn run_charge<G: Gate>(&mut self, set: &QueueSet, budget: u32, gate: &G) -> Spent
        requires seat { IsSeatOf set.now self.old.seat }
        requires begun { 0 < self.old.begun }
        ensures seat { IsSeatOf set.now self.new.seat }
        ensures same { IsSame self.old self.new × (self.new.begun ≡ self.old.begun) }
        ensures leads { Leads self.old.port self.old.readings (self.old.begun - 1) result.steps self.old.place self.new.place }
        ensures added { Added (knows self.old) (knows self.new) }
        ensures settles { settled_of self.old.place.src (knows self.old) ≤ settled_of self.new.place.src (knows self.new) }
        ensures steps { result.steps ≤ budget }
        ensures settled { result.steps < budget → IsSettled (length self.new.readings) self.new.place.row }
        ensures booted { KnowsItsPlace (phase_of self.new.place.row.stage) self.new.place.row.accepted self.new.place.row.next self.new.place.src (knows self.new) }
        ensures grows { Grows self.old.port.queue.places (knows self.old).gone (self.old.begun - 1) self.old.place self.new.place }
        ensures account { IsAccounted self.new }
        ensures enough { SettlesEnough self.old.port.queue.places (length self.old.readings) budget self.old.place self.new.place (knows self.new) }
    {
        let actor = Actor::Source(self.pusher.port.source);
        let mut steps = 0;
        while steps < budget && self.is_left() {
            gate.pass(actor, self.published());
            self.step(set);
            steps += 1;
        }
        Spent { steps }
    }
}
