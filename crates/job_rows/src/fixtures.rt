//! Jobs of texts and their first faults, and whether jobs and their parts are the same.

use ink_base::limits::TEXT_BYTES;
use ink_base::{Actor, Cause, JobAnswer, JobFault, NoMemory};
use job_parts::{Charge, Item, Job};
use power_trace::parse_job;
use sqlite_items::Items;
use std::alloc::Global;

// The program and the header of the readings, 13 lines.
const PROGRAM: &[u8] =
    b"[program]\nthread a priority 1 queue 2 state 1 log 8\nsource a\ntask sum thread a limit 100\nli r1 0\nld r2 r1\nev r3\nadd r2 r2 r3\nst r2 r1\nout r2\ndone\nend\n[sensors]\n";

/// The text of a job with these lines for the readings, from line 14 on, and for the charges.
pub fn job_text(alloc: Global, readings: &[u8], charges: &[u8]) -> Result<Vec<u8>, NoMemory> {
    let mut text = Vec::new(alloc);
    text.extend_from_slice(PROGRAM)?;
    text.extend_from_slice(readings)?;
    text.extend_from_slice(b"\n[power]\n")?;
    text.extend_from_slice(charges)?;
    Ok(text)
}

/// The job of a text.
pub fn read(alloc: Global, text: &[u8]) -> Result<Job, JobAnswer> {
    if text.len() > TEXT_BYTES {
        return Err(JobAnswer::NoMemory);
    }
    parse_job(alloc, text)
}

/// The job of a text of these lines.
pub fn job(alloc: Global, readings: &[u8], charges: &[u8]) -> Result<Job, JobAnswer> {
    let text = job_text(alloc, readings, charges)?;
    read(alloc, text.as_slice())
}

/// The fault of an answer; none where there is a job.
pub fn fault_of(answer: &Result<Job, JobAnswer>) -> Option<JobFault> {
    match answer {
        Err(JobAnswer::Fault(fault)) => Some(*fault),
        _ => None,
    }
}

/// A fault at this line.
pub fn at(line: u32, cause: Cause) -> Option<JobFault> {
    Some(JobFault { line, cause })
}

/// The actor as texts of jobs name it, and the number of its turns.
pub fn turn(item: &Item) -> (char, u8, u32) {
    match item.actor {
        Actor::Kernel => ('K', 0, item.count),
        Actor::Source(source) => ('S', source.0, item.count),
        Actor::Clock => ('T', 0, item.count),
    }
}

/// Whether these are the turns that the items list.
pub fn are_turns(items: &[Item], turns: &[(char, u8, u32)]) -> bool {
    items.len() == turns.len()
        && items
            .iter()
            .zip(turns.iter())
            .all(|(item, wanted)| turn(item) == *wanted)
}

fn are_same_items(a: &[Item], b: &[Item]) -> bool {
    a.len() == b.len() && a.iter().zip(b.iter()).all(|(a, b)| turn(a) == turn(b))
}

fn are_same_charges(a: &[Charge], b: &[Charge]) -> bool {
    a.len() == b.len()
        && a.iter().zip(b.iter()).all(|(a, b)| {
            a.off == b.off && are_same_items(a.items.as_slice(), b.items.as_slice())
        })
}

fn are_same_readings(a: &[Items<u32>], b: &[Items<u32>]) -> bool {
    a.len() == b.len()
        && a.iter()
            .zip(b.iter())
            .all(|(a, b)| a.as_slice() == b.as_slice())
}

fn first_task(job: &Job) -> &[u8] {
    match job.accepted().program().tasks.as_slice() {
        [task, ..] => task.name.as_bytes(),
        [] => &[],
    }
}

/// Whether two jobs have the same readings and charges, and programs whose first tasks have one name.
pub fn are_same(a: &Job, b: &Job) -> bool {
    first_task(a) == first_task(b)
        && are_same_readings(a.readings(), b.readings())
        && are_same_charges(a.charges(), b.charges())
}
