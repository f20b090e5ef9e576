//! Texts of jobs, and the first faults of others (power_trace).

use crate::fixtures::{are_turns, at, fault_of, job};
use ink_base::{Cause, JobAnswer, JobFault, NoMemory};
use job_parts::{Charge, Job};
use std::alloc::Global;
use std::test::Fail;

fn is_first_charge(charges: &[Charge]) -> bool {
    match charges {
        [charge] => {
            charge.off == 0 && are_turns(charge.items.as_slice(), &[('S', 0, 9), ('K', 0, 200)])
        }
        _ => false,
    }
}

fn are_its_readings(job: &Job) -> bool {
    match job.readings() {
        [values] => values.as_slice() == [7].as_slice(),
        _ => false,
    }
}

const CHARGE: &[u8] = b"charge 0 S0*9 K*200\n";

// How many tasks the job has, and whether it has its charge and its readings.
fn parts(alloc: Global) -> Result<(usize, bool, bool), JobAnswer> {
    let job = job(alloc, b"S0 7", CHARGE)?;
    let tasks = job.accepted().program().tasks.len();
    Ok((
        tasks,
        is_first_charge(job.charges()),
        are_its_readings(&job),
    ))
}

#[test]
fn a_job_is_read(rt: HostRuntime) -> Result<(), Fail> {
    assert_eq!(rt; parts(rt.alloc())?, (1, true, true));
    Ok(())
}

fn fault(alloc: Global, readings: &[u8], charges: &[u8]) -> Option<JobFault> {
    fault_of(&job(alloc, readings, charges))
}

#[test]
fn readings_are_refused_at_their_line(rt: HostRuntime) -> Result<(), Fail> {
    let too_great = fault(rt.alloc(), b"S0 4294967296", CHARGE);
    assert_eq!(rt; too_great, at(14, Cause::OverLimit));
    assert!(rt; job(rt.alloc(), b"S0 4294967295", CHARGE).is_ok());
    let unknown = fault(rt.alloc(), b"S1 7", CHARGE);
    assert_eq!(rt; unknown, at(14, Cause::UnknownWord));
    Ok(())
}

// As many readings as a source may have, and then this.
fn most_readings(alloc: Global, behind: &[u8]) -> Result<Vec<u8>, NoMemory> {
    let mut readings = Vec::new(alloc);
    readings.extend_from_slice(b"S0")?;
    for _i in 0..65535 {
        readings.extend_from_slice(b" 1")?;
    }
    readings.extend_from_slice(behind)?;
    Ok(readings)
}

fn are_read(alloc: Global, behind: &[u8]) -> Result<bool, NoMemory> {
    let readings = most_readings(alloc, behind)?;
    Ok(job(alloc, readings.as_slice(), CHARGE).is_ok())
}

fn fault_behind_most(alloc: Global, behind: &[u8]) -> Result<Option<JobFault>, NoMemory> {
    let readings = most_readings(alloc, behind)?;
    Ok(fault(alloc, readings.as_slice(), CHARGE))
}

#[test]
fn a_source_has_65535_readings(rt: HostRuntime) -> Result<(), Fail> {
    assert!(rt; are_read(rt.alloc(), b"")?);
    let one_more = fault_behind_most(rt.alloc(), b"\nS0 1")?;
    assert_eq!(rt; one_more, at(15, Cause::OverLimit));
    Ok(())
}

#[test]
fn charges_are_refused_at_their_line(rt: HostRuntime) {
    let unknown = fault(rt.alloc(), b"S0 7", b"charge 0 X*4\n");
    assert_eq!(rt; unknown, at(16, Cause::UnknownWord));
    let too_great = fault(rt.alloc(), b"S0 7", b"charge 0 K*4194305\n");
    assert_eq!(rt; too_great, at(16, Cause::OverLimit));
    assert_eq!(rt; fault(rt.alloc(), b"S0 7", b""), at(16, Cause::Missing));
}

#[test]
fn the_sum_of_turns_is_judged_after_each_item(rt: HostRuntime) {
    let unknown = fault(rt.alloc(), b"S0 7", b"charge 0 K*4194304 K X\n");
    assert_eq!(rt; unknown, at(16, Cause::OverLimit));
    let no_number = fault(rt.alloc(), b"S0 7", b"charge 0 K*4194304 K*x\n");
    assert_eq!(rt; no_number, at(16, Cause::BadNumber));
}

#[test]
fn the_first_phase_with_a_fault_gives_it(rt: HostRuntime) {
    let reading = fault(rt.alloc(), b"S0 x", b"charge x");
    assert_eq!(rt; reading, at(14, Cause::BadNumber));
    let byte = fault(rt.alloc(), b"S0 x", b"charge \x80");
    assert_eq!(rt; byte, at(16, Cause::BadByte));
}
