//! The top call.

ghost use Rattle.std.specs.Prelude.{◌≡◌, map, string_bytes, Some, None};
ghost use Rattle.ink_modes.specs.Form.{IsAllowed};
ghost use Rattle.ink_modes.specs.modes.{form_of};
ghost use Rattle.ink_modes.specs.Answers.{Wrote, TellsCommand, Tells, IsComplete};

use crate::command::Command;
use crate::finish::Finish;
use crate::making::{Made, make};
use crate::words::command_of;
use ink_base::Status;
use ink_io::{Sink, Source, write_all_text};
use std::alloc::Global;
use std::thread::Threads;

/// Does what the words after the program's name say. `run` reads a job from the source, runs its board, and writes the text of the run to
/// the sink, with what its flags show; `soak` does so for the job that is generated from its number, without the outputs; `sweep` runs the
/// board of a job once for each number of turns of its first charge, and writes a line for each run; `print` reads a job and writes the
/// canonical text of its program. The words are in docs/FORMATS.md, "The words".
///
/// `Usage`: the words are no command, and nothing was read. `ReadFault`: a read failed. `TooLong`: the source gave a byte more than a job may
/// have. `Refused`: the bytes to the end of the source have a fault, and this is the first one with its line; with `sweep` the last is a job of
/// more than 8,192 turns. `NoMemory`: memory was refused.
/// After all of these nothing was written, and nothing is kept. `Done`: the command's record for its job is kept, and its whole text was
/// written. `WriteFault`: the same, but a write failed, and a part of the text from its beginning was written. A command is done, unless
/// memory is refused, where no read or write fails and its source has and tells the text of a job; `soak` needs no source.
pub fn board<R: Threads + Sync, S: Source, K: Sink>(
    alloc: Global,
    runtime: &R,
    words: &[String],
    source: &mut S,
    sink: &mut K,
) -> Finish
    ensures told { Tells (map string_bytes words.now) (S.state source.old) (S.state source.new)
        (K.state sink.old) (K.state sink.new) result.status result.kept }
    ensures complete { IsComplete (map string_bytes words.now) (S.state source.old) (S.state source.new)
        (K.state sink.old) (K.state sink.new) result.status }
{
    match command_of(words) {
        Some(command) => carry_out(alloc, runtime, command, source, sink),
        None => stop(Status::Usage),
    }
}

// Nothing was made and nothing is kept.
fn stop(status: Status) -> Finish
    ensures { result ≡ record { status = status; kept = None } }
{
    Finish { status, kept: None }
}

fn carry_out<R: Threads + Sync, S: Source, K: Sink>(
    alloc: Global,
    runtime: &R,
    command: Command,
    source: &mut S,
    sink: &mut K,
) -> Finish
    requires { IsAllowed (form_of command.mode).allowed command.flags }
    ensures { TellsCommand command (S.state source.old) (S.state source.new) (K.state sink.old) (K.state sink.new)
        result.status result.kept }
{
    match make(alloc, runtime, command, source) {
        Ok(made) => write_made(sink, made),
        Err(status) => stop(status),
    }
}

// Writes the text of what was made, and keeps its record.
fn write_made<K: Sink>(sink: &mut K, made: Made) -> Finish
    ensures kept { result.kept ≡ Some made.record }
    ensures wrote { Wrote (K.state sink.old) (K.state sink.new) made.text.items result.status }
{
    let status = match write_all_text(sink, made.text.as_slice()) {
        Ok(()) => Status::Done,
        Err(_) => Status::WriteFault,
    };
    Finish {
        status,
        kept: Some(made.record),
    }
}
