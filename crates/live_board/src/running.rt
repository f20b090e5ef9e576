//! The charges of a job, one after another.

ghost use Rattle.std.specs.Prelude.{length};
ghost use Rattle.live_board.specs.kept.Boards.{IsBoardAfter};

use crate::at_once::run_at_once;
use crate::begin::begin_charge;
use event_queue::QueueSet;
use irq_source::{Gate, SourceActor};
use job_parts::Job;
use kernel_actor::{ClockActor, KernelActor};
use std::thread::Threads;

/// Runs all charges of a job, in each of them all actors at once.
pub(crate) fn run_charges<R: Threads + Sync, G: Gate + Sync>(
    runtime: &R,
    job: &Job,
    set: &QueueSet,
    sources: &mut [SourceActor],
    kernel: &mut KernelActor,
    clock: &mut ClockActor,
    gate: &G,
)
    requires { IsBoardAfter job.now set.now 0 sources.old kernel.old clock.old }
    ensures { IsBoardAfter job.now set.now (length job.now.charges) sources.new kernel.new clock.new }
{
    let charges = job.charges();
    for n in 0..charges.len() {
        let charge = &charges[n];
        begin_charge(set, sources, kernel, clock, charge.off);
        run_at_once(runtime, set, sources, kernel, clock, charge, gate);
    }
}
