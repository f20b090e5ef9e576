//! The programs of the tests, as texts of jobs, and their plans.

use ink_base::JobAnswer;
use ink_base::limits::TEXT_BYTES;
use ink_layout::Plan;
use power_trace::{Job, parse_job};
use std::alloc::Global;

/// Thread a has a source, and its task adds each reading to the thread's state and puts the sum out.
pub(crate) const SUMMING: &[u8] =
    b"[program]\nthread a priority 1 queue 2 state 1 log 8\nsource a\ntask sum thread a limit 100\nli r1 0\nld r2 r1\nev r3\nadd r2 r2 r3\nst r2 r1\nout r2\ndone\nend\n[sensors]\nS0 7\n[power]\ncharge 0 S0*9 K*79\n";

/// Thread a has nothing but a task of one instruction.
pub(crate) const IDLE: &[u8] =
    b"[program]\nthread a priority 1 queue 2 state 0 log 8\ntask t thread a limit 1\ndone\nend\n[sensors]\n[power]\ncharge 0\n";

/// The same with a timer, first due at tick 10 and then each 20 ticks.
pub(crate) const TIMED: &[u8] =
    b"[program]\nthread a priority 1 queue 2 state 0 log 8\ntimer t thread a due 10 period 20\ntask t thread a limit 1\ndone\nend\n[sensors]\n[power]\ncharge 0\n";

/// The job of a text, none of which is too long to be one.
pub(crate) fn job(alloc: Global, text: &[u8]) -> Result<Job, JobAnswer> {
    if text.len() > TEXT_BYTES {
        return Err(JobAnswer::NoMemory);
    }
    parse_job(alloc, text)
}

/// The plan of a job's program.
pub(crate) fn plan(alloc: Global, text: &[u8]) -> Result<Plan, JobAnswer> {
    let (accepted, _, _, _) = job(alloc, text)?.into_parts();
    Ok(Plan::new(alloc, accepted)?)
}
