//! Where the words of a pipe stand that a sender uses.

ghost use Rattle.std.specs.Prelude.{◌≡◌, ◌+◌, ◌<◌, ◌≤◌, length};
ghost use Rattle.fram_words.specs.Header as header;
ghost use Rattle.fram_words.specs.Places.{Commit, Ring};
ghost use Rattle.fram_words.specs.Steps.{place_of};
ghost use Rattle.event_pipe.specs.Ring.{ring_index};
ghost use Rattle.thread_state.specs.Pages as pages;
ghost use Rattle.prog_check.specs.Accepted.{IsAccepted};
ghost use Rattle.prog_check.specs.Lookup.{pipe_def};
ghost use Rattle.ink_layout.specs.Shape.{IsOnBoard};

use event_pipe::ring_at;
use fram_words::{Header, Place};
use ink_base::PipeId;
use task_isa::Program;
use thread_state::header_in;

// The commit word of a pipe's reader.
pub(crate) fn reader_of(program: &Program, pipe: u32) -> Place
    requires accepted { IsAccepted program.now }
    requires known { pipe < length program.now.pipes }
    ensures place { place_of result ≡ Commit (pipe_def program.now pipe).reader.0 }
    ensures there { IsOnBoard program.now (place_of result) }
{
    Place::Commit {
        thread: program.pipes.as_slice()[pipe as usize].reader,
    }
}

// The number of items that were taken from a pipe, in the copy of the reader's block that its commit word names.
pub(crate) fn taken_of(program: &Program, pipe: u32, commit_word: u64) -> Place
    requires accepted { IsAccepted program.now }
    requires known { pipe < length program.now.pipes }
    ensures place { place_of result ≡ pages.place_in (pipe_def program.now pipe).reader.0 commit_word (header.taken pipe) }
    ensures there { IsOnBoard program.now (place_of result) }
{
    header_in(
        program.pipes.as_slice()[pipe as usize].reader,
        commit_word,
        Header::Taken(pipe),
    )
}

// The ring word of item number `count` of a pipe.
pub(crate) fn item_of(program: &Program, pipe: u32, count: u64) -> Place
    requires accepted { IsAccepted program.now }
    requires known { pipe < length program.now.pipes }
    ensures place { place_of result ≡ Ring pipe (ring_index (pipe_def program.now pipe).places count) }
    ensures there { IsOnBoard program.now (place_of result) }
{
    Place::Ring {
        pipe: PipeId(pipe as u8),
        index: ring_at(0, places_of(program, pipe), count),
    }
}

// The number of places of a pipe.
pub(crate) fn places_of(program: &Program, pipe: u32) -> u8
    requires accepted { IsAccepted program.now }
    requires known { pipe < length program.now.pipes }
    ensures places { result ≡ (pipe_def program.now pipe).places }
    ensures some { 1 ≤ result }
{
    program.pipes.as_slice()[pipe as usize].places
}
