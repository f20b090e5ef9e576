//! The boards of a station, run at once.

ghost use Rattle.std.specs.Prelude.{◌≡◌, ◌<◌, ◌≤◌, ℕ, [], length, slice_index_or, vec_capacity, IfOk};
ghost use Rattle.std.specs.List.{All, AllZip};
ghost use Rattle.kernel_core.specs.Core.{View};
ghost use Rattle.ink_station.specs.Running.{AreRunsOf};
ghost use Rattle.ink_station.specs.kept.Cores.{IsPrepared, HasNotBegun, HasRun, IsRecordOf};

use crate::limits::BOARDS;
use ink_base::NoMemory;
use job_parts::Job;
use kernel_core::{Core, RunRecord, prepare};
use std::alloc::Global;
use std::thread::{Threads, for_each_mut};

/// The records of the whole runs of at most 16 jobs, in the order of the jobs, whichever board ends first. All boards are prepared before
/// the first of them runs, and the running takes no memory.
pub fn station<R: Threads + Sync>(
    alloc: Global,
    rt: &R,
    jobs: Vec<Job>,
) -> Result<Vec<RunRecord>, NoMemory>
    requires { length jobs.items ≤ BOARDS }
    ensures { IfOk result (λ records. AreRunsOf jobs.items records.items) }
{
    let records = Vec::with_capacity(alloc, jobs.len())?;
    let mut cores = prepared(alloc, jobs)?;
    run_all(rt, cores.as_mut_slice());
    Ok(recorded(cores, records))
}

// The board of each job before its first charge.
fn prepared(alloc: Global, jobs: Vec<Job>) -> Result<Vec<Core>, NoMemory>
    ensures { IfOk result (λ cores. AllZip IsPrepared jobs.items cores.items) }
{
    let mut cores = Vec::with_capacity(alloc, jobs.len())?;
    for job in jobs {
        cores.push(prepare(alloc, job)?)?;
    }
    Ok(cores)
}

// Runs all boards at once.
fn run_all<R: Threads + Sync>(rt: &R, cores: &mut [Core])
    requires { All HasNotBegun cores.old }
    ensures { (n : ℕ) (d : View) → n < length cores.old → HasRun (slice_index_or cores.old n d) (slice_index_or cores.new n d) }
{
    for_each_mut(rt, cores, BOARDS, &|_, core| run_one(core));
}

// Runs one.
fn run_one(core: &mut Core)
    requires { HasNotBegun core.old }
    ensures { HasRun core.old core.new }
{
    core.run();
}

// What each board leaves behind, in the room that was kept for it.
fn recorded(cores: Vec<Core>, mut records: Vec<RunRecord>) -> Vec<RunRecord>
    requires empty { records.items ≡ [] }
    requires room { length cores.items ≤ vec_capacity records }
    ensures { AllZip IsRecordOf cores.items result.items }
{
    for core in cores {
        records.push_reserved(core.into_record());
    }
    records
}
