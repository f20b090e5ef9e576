//! How many accesses remain of a service: a job is run with one turn of the kernel more each time.

use crate::fixtures::job;
use ink_base::{Entry, JobAnswer};
use kernel_core::prepare;
use std::alloc::Global;
use std::test::Fail;

// Adds the reading to the thread's state and puts the sum out.
const SUM: &str =
    "[program]\nthread a priority 1 queue 2 state 1 log 8\nsource a\ntask sum thread a limit 100\nli r1 0\nld r2 r1\nev r3\nadd r2 r2 r3\nst r2 r1\nout r2\ndone\nend\n[sensors]\nS0 7\n[power]\ncharge 0 S0*9";

// Counts the event, puts the count out, and divides by the reading, which is 0.
const DIVISION: &str =
    "[program]\nthread a priority 1 queue 2 state 1 log 8\nsource a\ntask sum thread a limit 100\nli r1 0\nld r2 r1\nli r3 1\nadd r2 r2 r3\nst r2 r1\nout r2\nev r0\nli r3 100\ndivu r3 r3 r0\nout r3\ndone\nend\n[sensors]\nS0 0 4\n[power]\ncharge 0 S0*14";

// Averages four samples, sends the average to another thread, which reports it, and so a timer.
const AVERAGE: &str =
    "[program]\nthread sense priority 2 queue 8 state 2 log 64\nthread report priority 1 queue 2 state 0 log 64\nsource sense\npipe avg 4 from sense to report\ntimer beat thread report due 100 period 100\ntask take thread sense limit 50\nli r0 0\nli r1 1\nld r2 r0\nld r3 r1\nev r4\nadd r2 r2 r4\nadd r3 r3 r1\nli r5 4\neq r6 r3 r5\njz r6 keep\ndivu r2 r2 r5\nsend avg r7 r2\nli r2 0\nli r3 0\nkeep:\nst r2 r0\nst r3 r1\ndone\nend\ntask show thread report limit 20\nev r0\nout r0\ndone\nend\n[sensors]\nS0 20 22 24 26 30 30 31 33\n[power]\ncharge 100 S0*50";

// What a kernel has left behind so many of its turns, and how many commits it has made.
fn left_behind(alloc: Global, text: &str, turns: u32) -> Result<(Option<u32>, usize), JobAnswer> {
    let text = format!(in alloc; "{text} K*{turns}\n")?;
    let mut core = prepare(alloc, job(alloc, text.as_bytes())?)?;
    core.run();
    let left = core.remaining();
    let mut commits = 0;
    for charge in core.into_record().charges.as_slice() {
        for entry in charge.entries.as_slice() {
            if matches!(entry, Entry::Commit { .. }) && commits < usize::MAX {
                commits += 1;
            }
        }
    }
    Ok((left, commits))
}

// 3 accesses for the event, 12 for the code, 5 for the end, 1 for the commit and 48 for three pages.
#[test]
fn a_picked_sum_has_69_accesses_left(rt: HostRuntime) -> Result<(), Fail> {
    assert_eq!(rt; left_behind(rt.alloc(), SUM, 7)?, (None, 0));
    assert_eq!(rt; left_behind(rt.alloc(), SUM, 8)?, (Some(69), 0));
    assert_eq!(rt; left_behind(rt.alloc(), SUM, 76)?, (Some(1), 0));
    assert_eq!(rt; left_behind(rt.alloc(), SUM, 77)?, (Some(0), 1));
    assert_eq!(rt; left_behind(rt.alloc(), SUM, 79)?, (None, 1));
    Ok(())
}

// The event twice with 6, the code up to the trap with 14, the end with 5, the commit with 1, three pages before the trap and one after
// it with 64.
#[test]
fn a_picked_division_by_zero_has_90_accesses_left(rt: HostRuntime) -> Result<(), Fail> {
    assert_eq!(rt; left_behind(rt.alloc(), DIVISION, 8)?, (Some(90), 0));
    assert_eq!(rt; left_behind(rt.alloc(), DIVISION, 98)?, (Some(0), 1));
    Ok(())
}

// Between two numbers of turns: an access that remained is one less, and the last of them was the commit. A service without a release
// is over then.
fn counts_down(before: (Option<u32>, usize), after: (Option<u32>, usize)) -> bool {
    match before.0 {
        Some(left) if left > 0 => {
            let commits = if left == 1 { 1 } else { 0 };
            after.0.unwrap_or(0) == left - 1 && after.1.checked_sub(before.1) == Some(commits)
        }
        _ => after.1 == before.1,
    }
}

// It does so from one number of turns to another; how many commits there were then.
fn counts_down_within(
    alloc: Global,
    text: &str,
    from: u32,
    to: u32,
) -> Result<Option<usize>, JobAnswer> {
    let mut before = left_behind(alloc, text, from)?;
    for turns in from..to {
        let after = left_behind(alloc, text, turns.saturating_add(1))?;
        if !counts_down(before, after) {
            return Ok(None);
        }
        before = after;
    }
    Ok(Some(before.1))
}

// The boot makes 6 accesses and the scan that picks the first sample 5. Its service makes 58: 3 for the event, 17 for the code, 5 for the
// end, 1 for the commit and 32 for two pages. That of the fourth sample, picked behind 206 accesses, sends an item: 83. Behind eight samples
// the first item is picked, whose service makes 63: 4 for the event, 6 for the code, 4 for the end, 1 for the commit and 48 for three pages.
#[test]
fn services_of_the_node_have_58_83_and_63_accesses(rt: HostRuntime) -> Result<(), Fail> {
    assert_eq!(rt; left_behind(rt.alloc(), AVERAGE, 11)?, (Some(58), 0));
    assert_eq!(rt; left_behind(rt.alloc(), AVERAGE, 206)?, (Some(83), 3));
    assert_eq!(rt; left_behind(rt.alloc(), AVERAGE, 589)?, (Some(63), 8));
    Ok(())
}

// The whole job up to where nothing is left to serve: eight samples, the two items that they send, and the timer that was due.
#[test]
fn each_access_of_the_node_is_one_less(rt: HostRuntime) -> Result<(), Fail> {
    assert_eq!(rt; counts_down_within(rt.alloc(), AVERAGE, 0, 900)?, Some(11));
    Ok(())
}
