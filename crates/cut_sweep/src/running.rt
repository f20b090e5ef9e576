//! The run of a job whose first charge is cut.

ghost use Rattle.std.specs.Prelude.{◌≡◌, ◌+◌, ◌-◌, ◌<◌, ◌≤◌, length};
ghost use Rattle.job_parts.specs.Job.{IsJob};
ghost use Rattle.kernel_core.specs.Board.{moved_by};
ghost use Rattle.kernel_core.specs.Core.{setup_of, charge_def};
ghost use Rattle.kernel_core.specs.Listed.{moves, moves_of, turns_of};
ghost use Rattle.kernel_core.specs.Moves.{IsActor};
ghost use Rattle.cut_sweep.specs.Cut.{cut_item, cut_charge, cut_to};

use ink_base::limits::TURNS;
use job_parts::{Charge, Item, Job};
use kernel_core::Core;

/// Runs the job of a core that has not begun, with its first charge cut to its first so many turns, and with all others as they are listed.
pub(crate) fn run_cut(core: &mut Core, job: &Job, turns: u32)
    requires same { core.old.job ≡ job.now }
    requires first { core.old.board.begun ≡ 0 }
    ensures board { core.new.board ≡ moved_by (setup_of job.now) core.old.board (moves (cut_to job.now turns).charges) }
    ensures job { core.new.job ≡ core.old.job }
{
    match job.charges() {
        [] => {}
        [first, others @ ..] => {
            run_charge(core, first, turns);
            for charge in others {
                run_charge(core, charge, TURNS);
            }
        }
    }
}

// The next charge of the core's job: a cut with its dark ticks, and then the first so many turns of its items.
fn run_charge(core: &mut Core, charge: &Charge, turns: u32)
    requires job { IsJob core.old.job }
    requires known { core.old.board.begun < length core.old.job.charges }
    requires charge { charge.now ≡ charge_def core.old.job core.old.board.begun }
    ensures board { core.new.board ≡ moved_by (setup_of core.old.job) core.old.board (moves_of (cut_charge turns charge.now)) }
    ensures begun { core.new.board.begun ≡ core.old.board.begun + 1 }
    ensures job { core.new.job ≡ core.old.job }
{
    core.cut(charge.off);
    let mut left = turns;
    for item in charge.items.as_slice() {
        left = run_item(core, *item, left);
    }
}

// As many of an item's turns as are left to make, of so many; answers how many are left behind it.
fn run_item(core: &mut Core, item: Item, left: u32) -> u32
    requires known { IsActor (setup_of core.old.job) item.actor }
    requires begun { 0 < core.old.board.begun }
    requires room { item.count ≤ core.old.room }
    ensures board { core.new.board ≡ moved_by (setup_of core.old.job) core.old.board (turns_of (cut_item left item)) }
    ensures begun { core.new.board.begun ≡ core.old.board.begun }
    ensures job { core.new.job ≡ core.old.job }
    ensures room { core.old.room ≤ core.new.room + item.count }
    ensures left { result ≡ left - item.count }
{
    let turns = left.min(item.count);
    core.run_item(Item {
        actor: item.actor,
        count: turns,
    });
    left - turns
}
