//! Generated jobs (power_trace).

use crate::fixtures::{are_same, are_turns};
use ink_base::NoMemory;
use job_parts::{Charge, Job};
use power_trace::soak_job;
use std::alloc::Global;
use std::test::Fail;

// Whether there are 500 values that begin with these two.
fn begins(values: &[u32], first: u32, second: u32) -> bool {
    values.len() == 500 && values.starts_with(&[first, second])
}

fn are_its_readings(job: &Job) -> bool {
    match job.readings() {
        [first, second] => {
            begins(first.as_slice(), 15496, 24200) && begins(second.as_slice(), 41153, 39545)
        }
        _ => false,
    }
}

fn turns(charges: &[Charge]) -> u32 {
    let mut turns: u32 = 0;
    for charge in charges {
        for item in charge.items.as_slice() {
            turns = turns.saturating_add(item.count);
        }
    }
    turns
}

fn is_first_charge(charges: &[Charge]) -> bool {
    match charges {
        [first, ..] => {
            let wanted = [('S', 0, 3), ('K', 0, 463), ('S', 1, 9), ('T', 0, 2)];
            first.off == 4 && are_turns(first.items.as_slice(), &wanted)
        }
        [] => false,
    }
}

// How many charges and turns the job of number 1 has, and whether it has its readings and its first charge.
fn parts(alloc: Global) -> Result<(usize, u32, bool, bool), NoMemory> {
    let job = soak_job(alloc, 1)?;
    let charges = job.charges();
    Ok((
        charges.len(),
        turns(charges),
        are_its_readings(&job),
        is_first_charge(charges),
    ))
}

#[test]
fn the_job_of_number_1_is_as_computed_elsewhere(rt: HostRuntime) -> Result<(), Fail> {
    assert_eq!(rt; parts(rt.alloc())?, (201, 67361, true, true));
    Ok(())
}

// Whether two numbers give the same job.
fn give_the_same(alloc: Global, a: u32, b: u32) -> Result<bool, NoMemory> {
    let first = soak_job(alloc, a)?;
    let second = soak_job(alloc, b)?;
    Ok(are_same(&first, &second))
}

#[test]
fn equal_numbers_give_equal_jobs(rt: HostRuntime) -> Result<(), Fail> {
    assert!(rt; give_the_same(rt.alloc(), 7, 7)?);
    assert!(rt; !give_the_same(rt.alloc(), 7, 8)?);
    Ok(())
}
