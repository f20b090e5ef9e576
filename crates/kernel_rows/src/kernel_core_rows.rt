//! A run of a small job.

use crate::fixtures::{SUMMING, job};
use ink_base::{Entry, JobAnswer, SourceId, ThreadId};
use kernel_core::{ChargeRecord, RunRecord, prepare};
use std::alloc::Global;
use std::test::Fail;

fn record(alloc: Global, text: &[u8], again: u32) -> Result<RunRecord, JobAnswer> {
    let mut core = prepare(alloc, job(alloc, text)?)?;
    core.run();
    for _ in 0..again {
        core.begin_again();
        core.run();
    }
    Ok(core.into_record())
}

// A pushed reading and its service, up to the release.
fn is_whole_service(charge: &ChargeRecord) -> bool {
    matches!(
        charge.entries.as_slice(),
        [
            Entry::Tick { by: 0 },
            Entry::Push {
                source: SourceId(0)
            },
            Entry::Scan,
            Entry::Commit {
                thread: ThreadId(0)
            },
            Entry::Release {
                thread: ThreadId(0)
            },
        ]
    ) && charge.source_steps.as_slice() == [9].as_slice()
        && (charge.off, charge.kernel_steps, charge.tick_steps) == (0, 79, 0)
}

fn is_one_service(alloc: Global, text: &[u8], again: u32) -> Result<bool, JobAnswer> {
    let record = record(alloc, text, again)?;
    match record.charges.as_slice() {
        [charge] => Ok(is_whole_service(charge)),
        _ => Ok(false),
    }
}

// 3 accesses of a boot, 5 of a scan, and 71 of a task.
#[test]
fn a_run_records_its_charge(rt: HostRuntime) -> Result<(), Fail> {
    assert!(rt; is_one_service(rt.alloc(), SUMMING, 0)?);
    Ok(())
}

#[test]
fn a_core_that_begins_again_makes_the_same_run(rt: HostRuntime) -> Result<(), Fail> {
    assert!(rt; is_one_service(rt.alloc(), SUMMING, 2)?);
    Ok(())
}
