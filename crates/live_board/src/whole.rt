//! A live board from its job to its record.

ghost use Rattle.std.specs.Prelude.{◌≡◌, None, IfOk};
ghost use Rattle.live_account.specs.Record.{IsLiveRecord};

use crate::finish::finish_live;
use crate::parts::prepare_live;
use crate::running::run_charges;
use ink_base::NoMemory;
use irq_source::Gate;
use job_parts::Job;
use live_account::LiveRecord;
use std::alloc::Global;
use std::thread::Threads;

/// Runs a job whose run begins at the first image of its program, its sources, its clock and its kernel as actors of their own. In each
/// charge the clock goes on by the ticks in the dark and every actor is cut; the kernel hears what each source and the clock know, and each
/// source what the kernel knows; and then all of them make the accesses of their turns at once, passing the gate before each. What is left
/// is the record: what each queue accepted and refused, what the kernel tells of itself, and the words at the end.
///
/// Memory is taken before the first access alone.
pub fn live<R: Threads + Sync, G: Gate + Sync>(
    alloc: Global,
    runtime: &R,
    job: Job,
    gate: &G,
) -> Result<LiveRecord, NoMemory>
    requires { job.start ≡ None }
    ensures { IfOk result (IsLiveRecord job) }
{
    let mut parts = prepare_live(alloc, job)?;
    run_charges(
        runtime,
        &parts.job,
        &parts.set,
        &mut parts.sources,
        &mut parts.kernel,
        &mut parts.clock,
        gate,
    );
    Ok(finish_live(parts))
}
