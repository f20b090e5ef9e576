//! The clock as an actor.
ghost use Rattle.std.specs.Prelude.{◌≡◌, ◌+◌, ◌<◌, ◌∷◌, ◌^◌};
ghost use Rattle.event_queue.specs.Calls.{sum_of};
ghost use Rattle.event_queue.specs.Seats.{clock_view, IsClockSeatOf, IsSameClockSeat, Noted};
ghost use Rattle.event_queue.specs.Views.{calls_of, clock_told};
ghost use Rattle.event_queue.specs.declared.view.Call.TheVariants.{AddClock};
ghost use Rattle.kernel_actor.specs.Ticks.{ticked};

use event_queue::{ClockSeat, Note, QueueSet};
use irq_source::Spent;

/// The clock with its seat at the queues.
#[derive(Drop)]
pub struct ClockActor {
    pub seat: ClockSeat,
}

impl ClockActor {
    /// The clock with its seat.
    pub fn new(seat: ClockSeat) -> ClockActor
        ensures { result.seat ≡ seat }
    {
        ClockActor { seat }
    }

    /// Power fails, for so many ticks: the clock goes on by them in one step. The sum of all that it added stays below 2^47.
    pub fn cut(&mut self, set: &QueueSet, off: u32)
        requires seat { IsClockSeatOf set.now self.old.seat }
        requires sum { sum_of (calls_of (clock_view self.old.seat)) + off < 2 ^ 47 }
        ensures seat { IsSameClockSeat self.old.seat self.new.seat }
        ensures calls { calls_of (clock_view self.new.seat) ≡ AddClock off ∷ calls_of (clock_view self.old.seat) }
    {
        self.seat.add_clock(set, off as u64);
    }

    #[tactic(auto, using(crate::proofs::Ticking::ticked_more, crate::proofs::Ticking::ticked_sum))]
    /// Makes so many ticks, each one step. The sum of all that it added stays below 2^47.
    pub fn run_charge(&mut self, set: &QueueSet, budget: u32) -> Spent
        requires seat { IsClockSeatOf set.now self.old.seat }
        requires sum { sum_of (calls_of (clock_view self.old.seat)) + budget < 2 ^ 47 }
        ensures seat { IsSameClockSeat self.old.seat self.new.seat }
        ensures calls { calls_of (clock_view self.new.seat) ≡ ticked budget (calls_of (clock_view self.old.seat)) }
        ensures sum { sum_of (calls_of (clock_view self.new.seat)) ≡ sum_of (calls_of (clock_view self.old.seat)) + budget }
        ensures steps { result.steps ≡ budget }
    {
        for _ in 0..budget {
            self.seat.add_clock(set, 1);
        }
        Spent { steps: budget }
    }

    /// A note of what the clock's seat knows.
    pub fn note(&mut self, set: &QueueSet) -> Note
        requires seat { IsClockSeatOf set.now self.old.seat }
        ensures seat { IsSameClockSeat self.old.seat self.new.seat }
        ensures calls { calls_of (clock_view self.new.seat) ≡ calls_of (clock_view self.old.seat) }
        ensures note { Noted set.now (clock_told (clock_view self.old.seat)) result }
    {
        self.seat.note(set)
    }
}
