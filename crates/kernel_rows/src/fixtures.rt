//! The programs of the tests, as texts of jobs, and their plans.

use ink_base::JobAnswer;
use ink_base::limits::TEXT_BYTES;
use ink_layout::Plan;
use power_trace::{Job, parse_job};
use std::alloc::Global;

/// Thread a has a source, and its task adds each reading to the thread's state and puts the sum out.
pub(crate) const SUMMING: &[u8] =
    b"[program]\nthread a priority 1 queue 2 state 1 log 8\nsource a\ntask sum thread a limit 100\nli r1 0\nld r2 r1\nev r3\nadd r2 r2 r3\nst r2 r1\nout r2\ndone\nend\n[sensors]\nS0 7\n[power]\ncharge 0 S0*9 K*79\n";

/// Two threads without state, of which hi has the higher priority.
pub(crate) const TWO_THREADS: &[u8] =
    b"[program]\nthread lo priority 1 queue 2 state 0 log 8\nthread hi priority 2 queue 2 state 0 log 8\ntask l thread lo limit 1\ndone\nend\ntask h thread hi limit 1\ndone\nend\n[sensors]\n[power]\ncharge 0\n";

/// The same with a pipe of two places from lo to hi, and a timer of hi, whose chains expire after 100 ticks.
pub(crate) const PIPED: &[u8] =
    b"[program]\nthread lo priority 1 queue 2 state 0 log 8\nthread hi priority 2 queue 2 state 0 log 8 expires 100\npipe p 2 from lo to hi\ntimer t thread hi due 5 period 0\ntask l thread lo limit 1\ndone\nend\ntask h thread hi limit 1\ndone\nend\n[sensors]\n[power]\ncharge 0\n";

/// Thread a sends 7 twice to a pipe of one place, whose reader is thread b, arms its first timer to be due in 7 ticks, with period 1, stops
/// its second one, and puts out whether each item was sent. Its chain, which may take 5 ticks, goes on with a task that puts the event's
/// value out, as thread b's task does. Thread b has a timer with a period, and one without.
pub(crate) const SENDING: &[u8] =
    b"[program]\nthread a priority 2 queue 2 state 1 log 8 expires 5\nthread b priority 1 queue 2 state 1 log 8\nsource a\npipe q 1 from a to b\ntimer armed thread a off\ntimer stopped thread a due 500 period 10\ntimer often thread b due 20 period 10\ntimer once thread b due 20 period 0\ntask send thread a limit 100\nli r1 7\nsend q r2 r1\nsend q r3 r1\narm armed r1 r2\nstop stopped\nout r2\nout r3\nnext tell_a\nend\ntask tell_a thread a limit 100\nev r1\nout r1\ndone\nend\ntask tell_b thread b limit 100\nev r1\nout r1\ndone\nend\n[sensors]\n[power]\ncharge 0\n";

/// The job of a text, none of which is too long to be one.
pub(crate) fn job(alloc: Global, text: &[u8]) -> Result<Job, JobAnswer> {
    if text.len() > TEXT_BYTES {
        return Err(JobAnswer::NoMemory);
    }
    parse_job(alloc, text)
}

/// The plan of a job's program.
pub(crate) fn plan(alloc: Global, text: &[u8]) -> Result<Plan, JobAnswer> {
    let (accepted, _, _, _) = job(alloc, text)?.into_parts();
    Ok(Plan::new(alloc, accepted)?)
}
