//! The slots of a program's queues.

ghost use Rattle.std.specs.Prelude.{◌≡◌, ◌<◌, length};
ghost use Rattle.fram_words.specs.Steps.{place_of};
ghost use Rattle.prog_check.specs.Accepted.{IsAccepted};
ghost use Rattle.ink_layout.specs.Shape.{IsOnBoard};
ghost use Rattle.ink_layout.specs.Slots.{slot_place};

use fram_words::Place;
use ink_base::ThreadId;
use task_isa::Program;

/// The slot of a position, counted from 0 over all events that the thread's queue ever accepted.
pub fn slot_of(program: &Program, thread: ThreadId, position: u32) -> Place
    requires accepted { IsAccepted program.now }
    requires known { thread.0 < length program.now.threads }
    ensures place { place_of result ≡ slot_place program.now thread.0 position }
    ensures there { IsOnBoard program.now (place_of result) }
{
    Place::Slot {
        thread,
        index: position % program.threads.as_slice()[thread.0 as usize].queue as u32,
    }
}
