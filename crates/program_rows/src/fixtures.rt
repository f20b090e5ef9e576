//! A job, what its run prints, and calls of the program.

ghost use Rattle.std.specs.Prelude.{◌≤◌};

use ink_io::{MemSink, MemSource, NoMemory, Sink, Source};
use ink_modes::{Finish, board};
use std::alloc::{AllocError, Global};
use std::thread::Threads;

/// A job of one thread that puts out the sum of its readings. It has 193 bytes.
pub(crate) const FIRST_JOB: &str =
    "[program]\nthread a priority 1 queue 2 state 1 log 8\nsource a\ntask sum thread a limit 100\nli r1 0\nld r2 r1\nev r3\nadd r2 r2 r3\nst r2 r1\nout r2\ndone\nend\n[sensors]\nS0 7\n[power]\ncharge 0 S0*9 K*200\n";

/// What its run prints. It has 115 bytes.
pub(crate) const FIRST_RUN: &str =
    "1 a 7\nthread a served 1 trapped 0 expired 0 held 0\nsource S0 next 1 pushed 1 refused 0\nclock 0 commits 1 charges 1\n";

pub(crate) fn words_of(alloc: Global, words: &[&str]) -> Result<Vec<String>, AllocError> {
    let mut all = Vec::new(alloc);
    for word in words {
        all.push(String::from_str(alloc, word)?)?;
    }
    Ok(all)
}

/// No call of a source or a sink has this number.
pub(crate) const NEVER: u64 = 0;

/// A source of a job that gives so many bytes at a call, and whose call of this number fails.
pub(crate) fn source_of(
    alloc: Global,
    job: &str,
    chunk: usize,
    call: u64,
) -> Result<MemSource, AllocError>
    requires { 1 ≤ chunk }
{
    let fail_at = [call].to_vec(alloc)?;
    let bytes = Vec::from_slice(alloc, job.as_bytes())?;
    Ok(MemSource::new(bytes, chunk, fail_at))
}

/// A sink with the room for what a few runs print, that takes so many bytes at a call, and whose call of this number fails.
pub(crate) fn sink_of(alloc: Global, chunk: usize, call: u64) -> Result<MemSink, NoMemory>
    requires { 1 ≤ chunk }
{
    let fail_at = [call].to_vec(alloc)?;
    MemSink::new(alloc, 2000, chunk, fail_at)
}

/// How a call whose one word is a mode ends.
pub(crate) fn called<R: Threads + Sync, S: Source, K: Sink>(
    alloc: Global,
    runtime: &R,
    mode: &str,
    source: &mut S,
    sink: &mut K,
) -> Result<Finish, AllocError> {
    let words = words_of(alloc, &[mode])?;
    Ok(board(alloc, runtime, words.as_slice(), source, sink))
}
