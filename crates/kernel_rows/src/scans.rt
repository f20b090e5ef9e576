//! Scans of two threads, from a row of the access table on.

ghost use Rattle.std.specs.Prelude.{◌+◌, ◌≤◌, IsTrue};
ghost use Rattle.prog_check.specs.Lookup.{pipe_def};
ghost use Rattle.priority_sched.specs.Scan.{IsScan, IsScanWord, IsWaiting};

use crate::fixtures::plan;
use fram_words::Access;
use ink_base::{Addr, Event, Origin, SourceId, ThreadId};
use ink_layout::{KernelPoint, Pick, Plan, SlotAt};
use priority_sched::{ScanAt, ScanMachine, Scanned, Waiting};
use std::alloc::Global;
use task_isa::Program;

// A pipe of the program.
fn is_waiting(program: &Program, waiting: Waiting) -> bool
    ensures { IsTrue result → IsWaiting program.now waiting }
{
    (waiting.pipe.0 as usize) < program.pipes.len() && waiting.taken < 1 << 32
}

// Thread, pipe and timer at hand are of the program.
fn is_scan(program: &Program, scan: &ScanMachine) -> bool
    ensures { IsTrue result → IsScan program.now scan.now }
{
    (scan.thread.0 as usize) < program.threads.len()
        && match scan.at {
            ScanAt::Taken { pipe, .. } => (pipe.0 as usize) < program.pipes.len(),
            ScanAt::Writer { waiting }
            | ScanAt::Written { waiting, .. }
            | ScanAt::Item { waiting } => is_waiting(program, waiting),
            ScanAt::Timer { timer, .. } => (timer.0 as usize) < program.timers.len(),
            _ => true,
        }
}

// No more items were written than taken and places.
fn is_written(program: &Program, waiting: Waiting, word: u64) -> bool
    ensures { IsTrue result → (waiting.taken ≤ word) × (word ≤ waiting.taken + (pipe_def program.now waiting.pipe.0).places) }
{
    match program.pipes.as_slice().get(waiting.pipe.0 as usize) {
        Some(pipe) => waiting.taken < 1 << 32
            && waiting.taken <= word
            && word <= waiting.taken + pipe.places as u64,
        None => false,
    }
}

// The row may find the word.
fn is_word(program: &Program, at: ScanAt, word: u64) -> bool
    ensures { IsTrue result → IsScanWord program.now at word }
{
    match at {
        ScanAt::Running { .. } => word <= program.tasks.len() as u64,
        ScanAt::Finished { .. } => word < 1 << 20,
        ScanAt::Value { .. } | ScanAt::Taken { .. } | ScanAt::Item { .. } => word < 1 << 32,
        ScanAt::Written { waiting, .. } => is_written(program, waiting, word),
        ScanAt::Timer { .. } => word <= 1 << 48,
        _ => true,
    }
}

// What the next access means, where it loads the address and finds the word.
fn point(plan: &Plan, scan: &mut ScanMachine, addr: Addr, word: u64) -> Option<KernelPoint> {
    if is_scan(plan.program(), scan)
        && is_word(plan.program(), scan.at, word)
        && scan.want(plan) == Access::Load(addr)
    {
        Some(scan.take(plan, word))
    } else {
        None
    }
}

// The scan after it found these words at these addresses, one after the other.
fn after(plan: &Plan, mut scan: ScanMachine, found: &[(Addr, u64)]) -> Option<ScanMachine> {
    for (addr, word) in found {
        point(plan, &mut scan, *addr, *word)?;
    }
    Some(scan)
}

// What the last of these accesses means.
pub(crate) fn last_point(
    alloc: Global,
    text: &[u8],
    mut scan: ScanMachine,
    addr: Addr,
    word: u64,
) -> Option<KernelPoint> {
    let plan = plan(alloc, text).ok()?;
    point(&plan, &mut scan, addr, word)
}

// The access that comes after it found these words.
pub(crate) fn next(
    alloc: Global,
    text: &[u8],
    scan: ScanMachine,
    found: &[(Addr, u64)],
) -> Option<Access> {
    let plan = plan(alloc, text).ok()?;
    let scan = after(&plan, scan, found)?;
    if is_scan(plan.program(), &scan) {
        Some(scan.want(&plan))
    } else {
        None
    }
}

// What the scan has found with these words.
pub(crate) fn result(
    alloc: Global,
    text: &[u8],
    scan: ScanMachine,
    found: &[(Addr, u64)],
) -> Option<Scanned> {
    let plan = plan(alloc, text).ok()?;
    after(&plan, scan, found)?.result()
}

// The event that the next access looks for.
pub(crate) fn slot_wanted(alloc: Global, text: &[u8], scan: ScanMachine) -> Option<SlotAt> {
    let plan = plan(alloc, text).ok()?;
    if is_scan(plan.program(), &scan) {
        scan.slot_wanted(&plan)
    } else {
        None
    }
}

// A scan at time 5 in a row of a thread.
pub(crate) fn scan_at(thread: u8, at: ScanAt) -> ScanMachine {
    ScanMachine {
        thread: ThreadId(thread),
        time: 5,
        at,
    }
}

// A scan before the load of a slot.
pub(crate) fn at_slot(thread: u8, position: u32) -> ScanMachine {
    let commit_word = 0;
    scan_at(
        thread,
        ScanAt::Slot {
            commit_word,
            position,
        },
    )
}

// The pick of an event of a thread whose service begins, after three finished events.
pub(crate) fn pick(thread: u8, event: Event) -> Pick {
    Pick {
        thread: ThreadId(thread),
        event,
        running: None,
        position: 3,
        time: 5,
        commit_word: 0,
        first: 0,
        due_word: 0,
        taken: 0,
    }
}

// The fourth event of source 2.
pub(crate) fn fourth() -> Origin {
    Origin::Source {
        source: SourceId(2),
        count: 4,
    }
}
