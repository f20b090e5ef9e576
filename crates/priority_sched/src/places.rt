//! The words of pipes.
ghost use Rattle.std.specs.Prelude.{◌≡◌, ◌<◌, length};
ghost use Rattle.fram_words.specs.Places.{Ring};
ghost use Rattle.fram_words.specs.Steps.{place_of};
ghost use Rattle.event_pipe.specs.Ring.{ring_index};
ghost use Rattle.prog_check.specs.Accepted.{IsAccepted};
ghost use Rattle.prog_check.specs.Lookup.{pipe_def};
ghost use Rattle.ink_layout.specs.Shape.{IsOnBoard};

use event_pipe::ring_at;
use fram_words::Place;
use ink_base::{PipeId, ThreadId};
use task_isa::Program;

/// The thread that writes a pipe.
pub(crate) fn writer_of(program: &Program, pipe: PipeId) -> ThreadId
    requires accepted { IsAccepted program.now }
    requires known { pipe.0 < length program.now.pipes }
    ensures writer { result ≡ (pipe_def program.now pipe.0).writer }
    ensures known { result.0 < length program.now.threads }
{
    program.pipes.as_slice()[pipe.0 as usize].writer
}

/// The ring word of item number `count` of a pipe.
pub(crate) fn item_of(program: &Program, pipe: PipeId, count: u64) -> Place
    requires accepted { IsAccepted program.now }
    requires known { pipe.0 < length program.now.pipes }
    ensures place { place_of result ≡ Ring pipe.0 (ring_index (pipe_def program.now pipe.0).places count) }
    ensures there { IsOnBoard program.now (place_of result) }
{
    let places = program.pipes.as_slice()[pipe.0 as usize].places;
    Place::Ring {
        pipe,
        index: ring_at(0, places, count),
    }
}
