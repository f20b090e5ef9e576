//! What a call keeps.

use crate::fixtures::{FIRST_JOB, NEVER, called, source_of};
use ink_audit::Verdict;
use ink_io::SureSink;
use ink_modes::Record;
use ink_radio::RadioRecord;
use kernel_core::{ChargeRecord, RunRecord};
use std::alloc::{AllocError, Global};
use std::test::Fail;
use std::thread::Threads;

// The three readings of the full queue.
const FULL_QUEUE: &str =
    "[program]\nthread a priority 1 queue 2 state 1 log 8\nsource a\ntask sum thread a limit 100\nli r1 0\nld r2 r1\nev r3\nadd r2 r2 r3\nst r2 r1\nout r2\ndone\nend\n[sensors]\nS0 7 8 9\n[power]\ncharge 0 S0*20\n";

// What is kept of a mode for a job; a read of it fails at this call.
fn kept_of<R: Threads + Sync>(
    alloc: Global,
    runtime: &R,
    mode: &str,
    job: &str,
    call: u64,
) -> Result<Option<Record>, AllocError> {
    let mut source = source_of(alloc, job, 100, call)?;
    let finish = called(alloc, runtime, mode, &mut source, &mut SureSink::new())?;
    Ok(finish.kept)
}

fn has_steps(charge: &ChargeRecord, kernel: u32, source: u32) -> bool {
    charge.kernel_steps == kernel
        && charge.source_steps.as_slice() == [source].as_slice()
        && charge.tick_steps == 0
}

// The record has one charge with so many accesses of the kernel and of the source, and none of the clock.
fn has_one_charge(record: &RunRecord, kernel: u32, source: u32) -> bool {
    match record.charges.as_slice() {
        [charge] => has_steps(charge, kernel, source),
        _ => false,
    }
}

fn keeps_charge<R: Threads + Sync>(
    alloc: Global,
    runtime: &R,
    job: &str,
    kernel: u32,
    source: u32,
) -> Result<bool, AllocError> {
    match &kept_of(alloc, runtime, "run", job, NEVER)? {
        Some(Record::Run(record)) => Ok(has_one_charge(record, kernel, source)),
        _ => Ok(false),
    }
}

#[test]
fn a_reading_is_pushed_served_and_released(rt: HostRuntime) -> Result<(), Fail> {
    assert!(rt; keeps_charge(rt.alloc(), &rt, FIRST_JOB, 200, 9)?);
    Ok(())
}

// The tail, two slots, ACK, the clock and SRC.
const SHARED: [u64; 6] = [
    2,
    0x8000000000000007,
    0x8000040100000008,
    0,
    0,
    0x0000000300000002,
];

fn keeps_shared_words<R: Threads + Sync>(
    alloc: Global,
    runtime: &R,
    job: &str,
) -> Result<bool, AllocError> {
    match &kept_of(alloc, runtime, "run", job, NEVER)? {
        Some(Record::Run(record)) => Ok(record.words.as_slice().ends_with(&SHARED)),
        _ => Ok(false),
    }
}

#[test]
fn a_full_queue_refuses_a_reading(rt: HostRuntime) -> Result<(), Fail> {
    assert!(rt; keeps_charge(rt.alloc(), &rt, FULL_QUEUE, 0, 17)?);
    assert!(rt; keeps_shared_words(rt.alloc(), &rt, FULL_QUEUE)?);
    Ok(())
}

fn keeps_program<R: Threads + Sync>(alloc: Global, runtime: &R) -> Result<bool, AllocError> {
    let kept = kept_of(alloc, runtime, "print", FIRST_JOB, NEVER)?;
    Ok(matches!(&kept, Some(Record::Print(_))))
}

#[test]
fn a_program_that_was_printed_is_kept(rt: HostRuntime) -> Result<(), Fail> {
    assert!(rt; keeps_program(rt.alloc(), &rt)?);
    Ok(())
}

// What follows a job in front of a claim, a text of its run with its journal.
const RIGHT_CLAIM: &str =
    "[claim]\n1 a 7\nthread a served 1 trapped 0 expired 0 held 0\nsource S0 next 1 pushed 1 refused 0\nclock 0 commits 1 charges 1\n[journal]\nTick 0\nPush S0\nScan\nCommit a\nRelease a\n";

// The same without the line of the reading that is pushed.
const CLAIM_WITHOUT_PUSH: &str =
    "[claim]\n1 a 7\nthread a served 1 trapped 0 expired 0 held 0\nsource S0 next 1 pushed 1 refused 0\nclock 0 commits 1 charges 1\n[journal]\nTick 0\nScan\nCommit a\nRelease a\n";

fn keeps_verdict<R: Threads + Sync>(
    alloc: Global,
    runtime: &R,
    claim: &str,
    verdict: Verdict,
) -> Result<bool, AllocError> {
    let text = format!(in alloc; "{FIRST_JOB}{claim}")?;
    match kept_of(alloc, runtime, "audit", text.as_str(), NEVER)? {
        Some(Record::Audit(kept)) => Ok(kept == verdict),
        _ => Ok(false),
    }
}

#[test]
fn the_verdict_on_a_claim_is_kept(rt: HostRuntime) -> Result<(), Fail> {
    assert!(rt; keeps_verdict(rt.alloc(), &rt, RIGHT_CLAIM, Verdict::Yes)?);
    assert!(rt; keeps_verdict(rt.alloc(), &rt, CLAIM_WITHOUT_PUSH, Verdict::No { line: 8 })?);
    Ok(())
}

// What follows a job whose one output the base saves.
const SCRIPT: &str = "[radio]\ngrow 2\nsend\ntobase 0\nsave\ntonode 1\n";

fn has_saved(told: &RadioRecord, value: u32) -> bool {
    match told.saved.as_slice() {
        [output] => output.value == value && told.acked == 1 && told.air.len() == 2,
        _ => false,
    }
}

fn keeps_saved<R: Threads + Sync>(
    alloc: Global,
    runtime: &R,
    script: &str,
    value: u32,
) -> Result<bool, AllocError> {
    let text = format!(in alloc; "{FIRST_JOB}{script}")?;
    match &kept_of(alloc, runtime, "radio", text.as_str(), NEVER)? {
        Some(Record::Radio(run, told)) => {
            Ok(has_one_charge(run, 200, 9) && has_saved(told, value))
        }
        _ => Ok(false),
    }
}

#[test]
fn what_a_base_has_is_kept_beside_the_run(rt: HostRuntime) -> Result<(), Fail> {
    assert!(rt; keeps_saved(rt.alloc(), &rt, SCRIPT, 7)?);
    Ok(())
}

fn keeps_nothing<R: Threads + Sync>(
    alloc: Global,
    runtime: &R,
    mode: &str,
    job: &str,
    call: u64,
) -> Result<bool, AllocError> {
    let kept = kept_of(alloc, runtime, mode, job, call)?;
    Ok(kept.is_none())
}

#[test]
fn nothing_is_kept_of_a_job_that_is_not_read_or_refused(rt: HostRuntime) -> Result<(), Fail> {
    assert!(rt; keeps_nothing(rt.alloc(), &rt, "run", FIRST_JOB, 2)?);
    assert!(rt; keeps_nothing(rt.alloc(), &rt, "run", "[program]\n", NEVER)?);
    assert!(rt; keeps_nothing(rt.alloc(), &rt, "audit", FIRST_JOB, NEVER)?);
    assert!(rt; keeps_nothing(rt.alloc(), &rt, "radio", FIRST_JOB, NEVER)?);
    Ok(())
}
