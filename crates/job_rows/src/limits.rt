//! The faults of readings and charges, and what is just within each limit.

use crate::fixtures::{at, fault_of, read};
use ink_base::{Cause, JobFault, NoMemory};
use std::alloc::Global;
use std::test::Fail;

const ONE: &str = "source a\n";

const TWO: &str = "source a\nsource a\n";

// The first fault of the job of these lines; none where it is read.
fn fault(
    alloc: Global,
    sources: &str,
    readings: &str,
    charges: &str,
) -> Result<Option<JobFault>, NoMemory> {
    let text = format!(in alloc;
        "[program]\nthread a priority 1 queue 2 state 0 log 8\n{sources}task t thread a limit 9\ndone\nend\n[sensors]\n{readings}\n[power]\n{charges}\n"
    )?;
    Ok(fault_of(&read(alloc, text.as_bytes())))
}

// Readings or charges, and the line and cause of the first fault of their job, if it has one.
type Case = (&'static str, Option<(u32, Cause)>);

fn wanted(case: &Case) -> Option<JobFault> {
    match case.1 {
        Some((line, cause)) => at(line, cause),
        None => None,
    }
}

// With one source the readings stand in line 8.
const OF_READINGS: &[Case] = &[
    ("S0", None),
    ("S0 0 4294967295", None),
    ("S0 4294967296", Some((8, Cause::OverLimit))),
    ("S0 0000000007", None),
    ("S0 00000000007", Some((8, Cause::BadNumber))),
    ("S0 7 8x 4294967296", Some((8, Cause::BadNumber))),
    ("S0 7\nS0 -1", Some((9, Cause::BadNumber))),
    ("S1 7", Some((8, Cause::UnknownWord))),
    ("S00 7", Some((8, Cause::UnknownWord))),
    ("s0 7", Some((8, Cause::UnknownWord))),
    ("[sensors]", Some((8, Cause::BadSection))),
    ("[program]", Some((8, Cause::BadSection))),
];

fn are_right_readings(alloc: Global, case: &Case) -> Result<bool, NoMemory> {
    Ok(fault(alloc, ONE, case.0, "charge 0")? == wanted(case))
}

#[test]
fn readings_and_both_sides_of_their_limits(rt: HostRuntime) -> Result<(), Fail> {
    for case in OF_READINGS {
        assert!(rt; are_right_readings(rt.alloc(), case)?);
    }
    Ok(())
}

#[test]
fn readings_of_the_sources_that_there_are(rt: HostRuntime) -> Result<(), Fail> {
    let both = fault(rt.alloc(), TWO, "S1 7\nS0 8", "charge 0")?;
    assert!(rt; both.is_none());
    let missing = fault(rt.alloc(), "", "S0 7", "charge 0")?;
    assert!(rt; missing == at(7, Cause::UnknownWord));
    Ok(())
}

// With one source and one line of readings the charges begin in line 10.
const OF_CHARGES: &[Case] = &[
    ("charge 0", None),
    ("charge 2147483647 K T S0", None),
    ("charge 2147483648", Some((10, Cause::OverLimit))),
    ("charge", Some((10, Cause::Missing))),
    ("charge x", Some((10, Cause::BadNumber))),
    ("charges 0", Some((10, Cause::UnknownWord))),
    ("", Some((11, Cause::Missing))),
    ("[power]", Some((10, Cause::BadSection))),
    ("charge 0 K*0 T*3", None),
    ("charge 0 K*", Some((10, Cause::BadNumber))),
    ("charge 0 K*3*3", Some((10, Cause::BadNumber))),
    ("charge 0 X", Some((10, Cause::UnknownWord))),
    ("charge 0 S1", Some((10, Cause::UnknownWord))),
    ("charge 0 S00*2", Some((10, Cause::UnknownWord))),
    ("charge 0 K*4194304", None),
    ("charge 0 K*4194305", Some((10, Cause::OverLimit))),
    ("charge 0 K*4194303 T", None),
    ("charge 0 K*4194304 T", Some((10, Cause::OverLimit))),
    ("charge 0 K*4194304\ncharge 0 S0*0", None),
    (
        "charge 0 K*4194304\ncharge 0 S0",
        Some((11, Cause::OverLimit)),
    ),
    (
        "charge 0\ncharge 0 K*4194304 X",
        Some((11, Cause::UnknownWord)),
    ),
];

fn are_right_charges(alloc: Global, case: &Case) -> Result<bool, NoMemory> {
    Ok(fault(alloc, ONE, "S0 7", case.0)? == wanted(case))
}

#[test]
fn charges_and_both_sides_of_their_limits(rt: HostRuntime) -> Result<(), Fail> {
    for case in OF_CHARGES {
        assert!(rt; are_right_charges(rt.alloc(), case)?);
    }
    Ok(())
}

// So many charges, and then this line.
fn charges_and(alloc: Global, count: u32, last: &str) -> Result<String, NoMemory> {
    let mut charges = String::new(alloc);
    for _charge in 0..count {
        charges.push_str("charge 0\n")?;
    }
    charges.push_str(last)?;
    Ok(charges)
}

fn fault_behind_charges(
    alloc: Global,
    count: u32,
    last: &str,
) -> Result<Option<JobFault>, NoMemory> {
    let charges = charges_and(alloc, count, last)?;
    fault(alloc, ONE, "S0 7", charges.as_str())
}

#[test]
fn a_job_has_at_most_4096_charges(rt: HostRuntime) -> Result<(), Fail> {
    let most = fault_behind_charges(rt.alloc(), 4095, "charge 0")?;
    assert!(rt; most.is_none());
    let one_more = fault_behind_charges(rt.alloc(), 4096, "charge x")?;
    assert!(rt; one_more == at(4106, Cause::OverLimit));
    Ok(())
}
