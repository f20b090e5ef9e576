//! The program `ink_board`: a job's text in, the text of its run, or of its program, out.
#![tactic(auto)]

use ink_base::Status;
use ink_io::{StdSink, StdSource};
use ink_modes::{Complaint, board, exit_code};
use std::process::ExitCode;
use std::thread::Threads;
use std::{env, io};

/// Does what the words of the command line say, on standard input and standard output. Where that isn't done, a line on standard error
/// says why.
fn main(rt: HostRuntime) -> ExitCode {
    let status = run_command(&rt, &rt);
    if status != Status::Done {
        let _unseen = eprintln!(rt; "{}", Complaint(status));
    }
    ExitCode::from(exit_code(status))
}

// Both are the handle that `main` was given: here it is known by its threads alone, since a function but `main` has no more.
fn run_command<R: Threads + Sync>(rt: &HostRuntime, threads: &R) -> Status {
    let words = match words_given(rt) {
        Ok(words) => words,
        Err(status) => return status,
    };
    let mut source = StdSource::new(rt.reader());
    let mut sink = StdSink::new(io::writer(rt));
    board(
        rt.alloc(),
        threads,
        words.as_slice(),
        &mut source,
        &mut sink,
    )
    .status
}

// The words after the program's name. One that is no text is in no command.
fn words_given(rt: &HostRuntime) -> Result<Vec<String>, Status> {
    let mut words = Vec::new(rt.alloc());
    let args = env::args(rt).map_err(|e| unread(e.kind()))?;
    for word in args.skip(1) {
        words.push(word).map_err(|_| Status::NoMemory)?;
    }
    Ok(words)
}

fn unread(kind: io::ErrorKind) -> Status {
    match kind {
        io::ErrorKind::OutOfMemory => Status::NoMemory,
        _ => Status::Usage,
    }
}
