//! Copies of jobs (job_parts).

use crate::fixtures::{are_same, job};
use ink_base::JobAnswer;
use std::alloc::Global;
use std::test::Fail;

// How many charges the copy of a job of two charges has, and whether it is the same as the job.
fn copied(alloc: Global) -> Result<(usize, bool), JobAnswer> {
    let job = job(alloc, b"S0 7 8", b"charge 5 S0*9 K*200\ncharge 0 T\n")?;
    let copy = job.copy(alloc)?;
    Ok((copy.charges().len(), are_same(&job, &copy)))
}

#[test]
fn a_copy_is_equal(rt: HostRuntime) -> Result<(), Fail> {
    assert_eq!(rt; copied(rt.alloc())?, (2, true));
    Ok(())
}
