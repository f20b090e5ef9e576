//! The table of a sweep.

ghost use Rattle.std.specs.Prelude.{◌≡◌, ◌≤◌, IfOk};
ghost use Rattle.kernel_core.specs.Core.{turns_in};
ghost use Rattle.cut_sweep.specs.Sweep.{IsRowOf, IsSweepOf};

use crate::limit::turns_in;
use crate::running::run_cut;
use crate::told::told_row;
use ink_base::NoMemory;
use ink_base::limits::TURNS;
use ink_layout::Plan;
use ink_report::{SweepRow, SweepTable};
use job_parts::Job;
use kernel_core::{Core, prepare};
use sqlite_items::Items;
use std::alloc::Global;

/// Runs the job once for each number of turns, from none to all that its first charge lists: with this charge cut to its first so many
/// turns, and with all other charges as they are listed. Row `n` has the numbers of the never-cut kernel's state after the journal of the
/// run whose first charge has `n` turns.
///
/// Memory is taken for one run and for the table, before the first run; each run is made in the same words and in the same room. The
/// turns of all runs grow with the square of those that the job lists ([`line_past`](crate::line_past) tells where these are more than
/// 8,192).
pub fn sweep(alloc: Global, job: &Job) -> Result<SweepTable, NoMemory>
    ensures { IfOk result (IsSweepOf job.now) }
{
    let plan = Plan::new(alloc, job.accepted().copy(alloc)?)?;
    let mut core = prepare(alloc, job.copy(alloc)?)?;
    table_of(alloc, &mut core, &plan, job)
}

// A row for each number of turns, with memory for all of them before the first run.
fn table_of(alloc: Global, core: &mut Core, plan: &Plan, job: &Job) -> Result<SweepTable, NoMemory>
    requires same { core.old.job ≡ job.now }
    requires plan { plan.now.accepted ≡ job.now.program }
    ensures { IfOk result (IsSweepOf job.now) }
{
    let turns = first_turns(job);
    let mut rows = Vec::with_capacity(alloc, turns as usize + 1)?;
    for n in 0..turns + 1 {
        rows.push_reserved(row_at(core, plan, job, n));
    }
    Ok(SweepTable {
        rows: Items::from_vec(rows),
    })
}

// The turns that the first charge of a job lists.
fn first_turns(job: &Job) -> u32
    ensures turns { result ≡ turns_in job.now 0 }
    ensures few { result ≤ TURNS }
{
    match job.charges() {
        [] => 0,
        [first, ..] => turns_in(first.items.as_slice()),
    }
}

// The row of the run whose first charge is cut to its first so many turns.
fn row_at(core: &mut Core, plan: &Plan, job: &Job, turns: u32) -> SweepRow
    requires same { core.old.job ≡ job.now }
    requires plan { plan.now.accepted ≡ job.now.program }
    ensures row { IsRowOf job.now turns result }
    ensures job { core.new.job ≡ core.old.job }
{
    // The job is within its limits.
    let _charges = job.charges();
    core.begin_again();
    run_cut(core, job, turns);
    told_row(plan, core.words(), turns)
}
