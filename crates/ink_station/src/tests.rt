//! Texts of stations, and their runs.

ghost use Rattle.std.specs.Prelude.{◌≤◌, length, IfOk};

use crate::limits::BOARDS;
use crate::{read_station, station};
use ink_base::limits::TEXT_BYTES;
use ink_base::{Cause, Entry, JobAnswer, JobFault};
use job_parts::Job;
use kernel_core::RunRecord;
use std::alloc::{AllocError, Global};
use std::test::*;
use std::thread::Threads;

// A thread that puts out the sum of its readings, up to the section of the readings.
const SUMMING: &[u8] =
    b"[program]\nthread a priority 1 queue 2 state 1 log 8\nsource a\ntask sum thread a limit 100\nli r1 0\nld r2 r1\nev r3\nadd r2 r2 r3\nst r2 r1\nout r2\ndone\nend\n[sensors]\n";

const SERVED: &[u8] = b"S0 7\n[power]\ncharge 0 S0*9 K*200\n";

const QUIET: &[u8] = b"[power]\ncharge 0 K*50\n";

// The text of these parts.
fn joined(alloc: Global, parts: &[&[u8]]) -> Result<Vec<u8>, AllocError> {
    let mut text = Vec::new(alloc);
    for part in parts {
        text.extend_from_slice(part)?;
    }
    Ok(text)
}

// The jobs of a text, none of which is too long to be one.
fn read(alloc: Global, text: &[u8]) -> Result<Vec<Job>, JobAnswer>
    ensures { IfOk result (λ jobs. length jobs.items ≤ BOARDS) }
{
    if text.len() > TEXT_BYTES {
        return Err(JobAnswer::NoMemory);
    }
    read_station(alloc, text)
}

// The first fault of the text of these parts.
fn fault_of(alloc: Global, parts: &[&[u8]]) -> Result<Option<JobFault>, AllocError> {
    let text = joined(alloc, parts)?;
    match read(alloc, text.as_slice()) {
        Ok(_) => Ok(None),
        Err(JobAnswer::Fault(fault)) => Ok(Some(fault)),
        Err(JobAnswer::NoMemory) => Err(AllocError),
    }
}

fn at(line: u32, cause: Cause) -> Option<JobFault> {
    Some(JobFault { line, cause })
}

// How many commits the first charge of a record has, and how many accesses its kernel made.
fn served(record: &RunRecord) -> (usize, u32) {
    match record.charges.as_slice() {
        [] => (0, 0),
        [charge, ..] => {
            let entries = charge.entries.as_slice();
            let commits = entries
                .iter()
                .filter(|entry| matches!(entry, Entry::Commit { thread: _ }))
                .count();
            (commits, charge.kernel_steps)
        }
    }
}

// What the first charge of each board of a text came to, in order.
fn run<R: Threads + Sync>(
    rt: &R,
    alloc: Global,
    parts: &[&[u8]],
) -> Result<Vec<(usize, u32)>, JobAnswer> {
    let text = joined(alloc, parts)?;
    let jobs = read(alloc, text.as_slice())?;
    let records = station(alloc, rt, jobs)?;
    let mut boards = Vec::new(alloc);
    for record in records.as_slice() {
        boards.push(served(record))?;
    }
    Ok(boards)
}

#[test]
fn each_board_has_its_own_run(rt: HostRuntime) -> Result<(), Fail> {
    let parts = [
        b"[board]\n".as_slice(),
        SUMMING,
        SERVED,
        b"[board]\n",
        SUMMING,
        QUIET,
    ];
    let boards = run(&rt, rt.alloc(), &parts)?;
    assert_eq!(rt; boards.as_slice(), [(1, 200), (0, 50)].as_slice());
    Ok(())
}

#[test]
fn faults_of_headers(rt: HostRuntime) -> Result<(), Fail> {
    let alloc = rt.alloc();
    assert_eq!(rt; fault_of(alloc, &[])?, at(1, Cause::Missing));
    assert_eq!(rt; fault_of(alloc, &[b"\n# none\n"])?, at(3, Cause::Missing));
    assert_eq!(rt;
        fault_of(alloc, &[b"\n[program]\n[board]\n"])?,
        at(2, Cause::BadSection)
    );
    assert_eq!(rt;
        fault_of(alloc, &[b"[board]\n[board] x\n"])?,
        at(2, Cause::UnknownWord)
    );
    assert_eq!(rt;
        fault_of(alloc, &[b"[board] x\n\x07"])?,
        at(2, Cause::BadByte)
    );
    let header = b"[board]\n".as_slice();
    let mut parts = [header; 17];
    assert_eq!(rt; fault_of(alloc, &parts)?, at(17, Cause::OverLimit));
    parts[16] = b"[board] x";
    assert_eq!(rt; fault_of(alloc, &parts)?, at(17, Cause::OverLimit));
    assert_eq!(rt; fault_of(alloc, &parts[..16])?, at(2, Cause::Missing));
    Ok(())
}

#[test]
fn faults_of_jobs(rt: HostRuntime) -> Result<(), Fail> {
    let alloc = rt.alloc();
    let header = b"[board]\n".as_slice();
    assert_eq!(rt; fault_of(alloc, &[b"[board]"])?, at(2, Cause::Missing));
    let without_charge = [header, SUMMING, b"S0 7\n[power]\n"];
    assert_eq!(rt; fault_of(alloc, &without_charge)?, at(17, Cause::Missing));
    let open_task = [
        header,
        SUMMING,
        QUIET,
        header,
        &SUMMING[..97],
        b"  [board]\n",
    ];
    assert_eq!(rt; fault_of(alloc, &open_task)?, at(23, Cause::Missing));
    let image = [
        header,
        SUMMING,
        QUIET,
        b"[image2]\n0000000000000000\n",
        header,
        SUMMING,
        SERVED,
    ];
    assert_eq!(rt; fault_of(alloc, &image)?, at(17, Cause::WrongShape));
    Ok(())
}

#[test]
fn turns_of_all_boards_together(rt: HostRuntime) -> Result<(), Fail> {
    let alloc = rt.alloc();
    let header = b"[board]\n".as_slice();
    let most = b"[power]\ncharge 0 K*4194304\n".as_slice();
    let parts = [
        header,
        SUMMING,
        most,
        header,
        SUMMING,
        b"[power]\ncharge 0\ncharge 0 K*0\ncharge 5 T\n",
        header,
        SUMMING,
        QUIET,
        b"[sensors]",
    ];
    assert_eq!(rt; fault_of(alloc, &parts[..5])?, at(31, Cause::Missing));
    assert_eq!(rt; fault_of(alloc, &parts[..6])?, at(34, Cause::OverLimit));
    assert_eq!(rt; fault_of(alloc, &parts[..9])?, at(34, Cause::OverLimit));
    assert_eq!(rt; fault_of(alloc, &parts)?, at(51, Cause::BadSection));
    Ok(())
}
