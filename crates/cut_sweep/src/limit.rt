//! The limit of the turns of a job that is run once for each of them.

ghost use Rattle.std.specs.Prelude.{◌≡◌, ◌≤◌, length};
ghost use Rattle.job_parts.specs.Job.{charge_turns, item_turns};
ghost use Rattle.cut_sweep.specs.Limit.{line_past};

use ink_base::limits::{SWEEP_TURNS, TURNS};
use job_parts::{Charge, Item};

/// Of the charges of a job, which stand at these lines: the line of the one with which the turns of all charges up to there are more than
/// 8,192; none where all of them together list no more.
pub fn line_past(charges: &[Charge], lines: &[u32]) -> Option<u32>
    requires lines { length lines.now ≡ length charges.now }
    requires few { charge_turns charges.now ≤ TURNS }
    ensures { result ≡ line_past 0 charges.now lines.now }
{
    let mut turns = 0;
    for n in 0..charges.len() {
        turns += turns_in(charges[n].items.as_slice());
        if turns > SWEEP_TURNS {
            return Some(lines[n]);
        }
    }
    None
}

/// The turns that items list.
pub(crate) fn turns_in(items: &[Item]) -> u32
    requires { item_turns items.now ≤ TURNS }
    ensures { result ≡ item_turns items.now }
{
    let mut turns = 0;
    for item in items {
        turns += item.count;
    }
    turns
}
