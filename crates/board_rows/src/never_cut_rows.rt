//! Journals that were worked out by hand, of a thread that sums its readings and puts each sum out.

ghost use Rattle.std.specs.Prelude.{◌≤◌, ◌<◌, ◌^◌, length};
ghost use Rattle.never_cut.specs.Within.{AreReadings};
ghost use Rattle.prog_check.specs.Accepted.{IsAccepted};

use crate::fixtures::{SUMMING, job};
use ink_base::limits::READINGS;
use ink_base::{Entry, NoMemory, Output, SourceId, ThreadId};
use never_cut::{Model, ReplayFault, SourceModel, ThreadModel, replay, replay_from};
use prog_check::Accepted;
use sqlite_items::Items;
use std::alloc::Global;
use std::test::Fail;

const PUSH: Entry = Entry::Push {
    source: SourceId(0),
};

const REFUSE: Entry = Entry::Refuse {
    source: SourceId(0),
};

const SKIP: Entry = Entry::Skip {
    source: SourceId(0),
};

const TICK: Entry = Entry::Tick { by: 0 };

const COMMIT: Entry = Entry::Commit {
    thread: ThreadId(0),
};

const RELEASE: Entry = Entry::Release {
    thread: ThreadId(0),
};

// The state after these entries over these readings.
fn after(alloc: Global, readings: &[u32], entries: &[Entry]) -> Result<Model, ReplayFault>
    requires few_readings { length readings.now ≤ READINGS }
    requires few_entries { length entries.now < 2 ^ 32 }
{
    let (accepted, _, _, _) = job(alloc, SUMMING)
        .or(Err(ReplayFault::NoMemory))?
        .into_parts();
    let readings = [Items::from_slice(alloc, readings).map_err(NoMemory::from)?];
    if accepted.program().sources.len() == 1 {
        replay(alloc, &accepted, &readings, entries)
    } else {
        Err(ReplayFault::NoMemory)
    }
}

// What a run's text tells of a state with one thread and one source: how many outputs there are, how many events were served and are held,
// the number of the next reading, and how many commits there were.
fn counts_of(model: &Model) -> [usize; 5] {
    match (model.threads.as_slice(), model.sources.as_slice()) {
        ([thread], [source]) => [
            model.outputs.len(),
            thread.served as usize,
            thread.held.len(),
            source.next as usize,
            model.commits as usize,
        ],
        _ => [0; 5],
    }
}

fn counts_after(
    alloc: Global,
    readings: &[u32],
    entries: &[Entry],
) -> Result<[usize; 5], ReplayFault>
    requires few_readings { length readings.now ≤ READINGS }
    requires few_entries { length entries.now < 2 ^ 32 }
{
    let model = after(alloc, readings, entries)?;
    Ok(counts_of(&model))
}

fn last_output(
    alloc: Global,
    readings: &[u32],
    entries: &[Entry],
) -> Result<Option<Output>, ReplayFault>
    requires few_readings { length readings.now ≤ READINGS }
    requires few_entries { length entries.now < 2 ^ 32 }
{
    let model = after(alloc, readings, entries)?;
    Ok(model.outputs.as_slice().last().copied())
}

fn output(value: u32) -> Option<Output> {
    Some(Output {
        stamp: 1,
        thread: ThreadId(0),
        value,
    })
}

// The state after these entries, which are replayed from the state in which nothing has happened.
fn after_first(
    alloc: Global,
    program: &Accepted,
    readings: &[Items<u32>],
    entries: &[Entry],
) -> Result<Model, ReplayFault>
    requires accepted { IsAccepted program.now }
    requires readings { AreReadings program.now readings.now }
    requires few_entries { length entries.now < 2 ^ 32 }
{
    let first = replay(alloc, program, readings, &[])?;
    replay_from(alloc, &first, program, readings, entries)
}

fn counts_after_first(
    alloc: Global,
    readings: &[u32],
    entries: &[Entry],
) -> Result<[usize; 5], ReplayFault>
    requires few_readings { length readings.now ≤ READINGS }
    requires few_entries { length entries.now < 2 ^ 32 }
{
    let (accepted, _, _, _) = job(alloc, SUMMING)
        .or(Err(ReplayFault::NoMemory))?
        .into_parts();
    let readings = [Items::from_slice(alloc, readings).map_err(NoMemory::from)?];
    if accepted.program().sources.len() == 1 {
        Ok(counts_of(&after_first(alloc, &accepted, &readings, entries)?))
    } else {
        Err(ReplayFault::NoMemory)
    }
}

// The index of the first entry that isn't legal.
fn illegal(alloc: Global, readings: &[u32], entries: &[Entry]) -> Option<u32>
    requires few_readings { length readings.now ≤ READINGS }
    requires few_entries { length entries.now < 2 ^ 32 }
{
    match after(alloc, readings, entries) {
        Err(ReplayFault::Illegal(n)) => Some(n),
        _ => None,
    }
}

#[test]
fn a_commit_serves_and_a_release_empties_the_queue(rt: HostRuntime) -> Result<(), Fail> {
    let served = [TICK, PUSH, Entry::Scan, COMMIT, TICK];
    assert_eq!(rt; counts_after(rt.alloc(), &[7], &served)?, [1, 1, 1, 1, 1]);
    assert_eq!(rt; last_output(rt.alloc(), &[7], &served)?, output(7));
    let released = [TICK, PUSH, Entry::Scan, COMMIT, TICK, RELEASE];
    assert_eq!(rt; counts_after(rt.alloc(), &[7], &released)?, [1, 1, 0, 1, 1]);
    assert_eq!(rt; last_output(rt.alloc(), &[7], &released)?, output(7));
    Ok(())
}

#[test]
fn a_full_queue_refuses_the_third_reading(rt: HostRuntime) -> Result<(), Fail> {
    let readings = [7, 8, 9];
    let refused = [TICK, PUSH, PUSH, REFUSE, SKIP];
    assert_eq!(rt;
        counts_after(rt.alloc(), &readings, &refused)?,
        [0, 0, 2, 3, 0]
    );
    let finished = [TICK, PUSH, PUSH, Entry::Scan, COMMIT, REFUSE, SKIP];
    assert_eq!(rt;
        counts_after(rt.alloc(), &readings, &finished)?,
        [1, 1, 2, 3, 1]
    );
    assert_eq!(rt; last_output(rt.alloc(), &readings, &finished)?, output(7));
    Ok(())
}

#[test]
fn a_refused_reading_may_still_be_pushed(rt: HostRuntime) -> Result<(), Fail> {
    let readings = [7, 8, 9];
    let entries = [
        TICK,
        PUSH,
        PUSH,
        REFUSE,
        TICK,
        Entry::Scan,
        COMMIT,
        RELEASE,
        PUSH,
    ];
    assert_eq!(rt;
        counts_after(rt.alloc(), &readings, &entries)?,
        [1, 1, 2, 3, 1]
    );
    assert_eq!(rt; last_output(rt.alloc(), &readings, &entries)?, output(7));
    Ok(())
}

#[test]
fn a_replay_goes_on_from_a_first_state(rt: HostRuntime) -> Result<(), Fail> {
    let served = [TICK, PUSH, Entry::Scan, COMMIT, TICK];
    assert_eq!(rt;
        counts_after_first(rt.alloc(), &[7], &served)?,
        [1, 1, 1, 1, 1]
    );
    Ok(())
}

#[test]
fn the_first_illegal_entry_is_told(rt: HostRuntime) {
    let scanned = [PUSH, Entry::Scan, COMMIT, Entry::Scan];
    assert_eq!(rt;
        illegal(rt.alloc(), &[7], &scanned),
        Some(3),
        "a finished event isn't released"
    );
    assert_eq!(rt;
        illegal(rt.alloc(), &[7], &[SKIP]),
        Some(0),
        "nothing was refused"
    );
}
