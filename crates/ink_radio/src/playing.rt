//! What a script leads to.

ghost use Rattle.std.specs.Prelude.{◌≡◌, ◌<◌, ◌≤◌, length, All, IfOk};
ghost use Rattle.ink_radio.specs.Radio.{played, record_of};
ghost use Rattle.ink_radio.specs.Keeps.{EveryPrefixKeeps};

use crate::event::RadioEvent;
use crate::limits::{OUTPUTS, SCRIPT_LINES};
use crate::record::RadioRecord;
use crate::state::RadioState;
use ink_base::limits::THREADS;
use ink_base::{NoMemory, Output};
use std::alloc::Global;

/// What a script of at most 65,536 events makes of at most 65,536 outputs, each of a thread below 16. After every prefix of the script what the
/// base has is a prefix of the outputs that have grown, and the node knows at most as many outputs as saved as are.
pub fn radio(
    alloc: Global,
    outputs: &[Output],
    script: &[RadioEvent],
) -> Result<RadioRecord, NoMemory>
    requires outputs { length outputs.now ≤ OUTPUTS }
    requires threads { All (λ output. output.thread.0 < THREADS) outputs.now }
    requires script { length script.now ≤ SCRIPT_LINES }
    ensures played { IfOk result (λ told. told ≡ record_of (played outputs.now script.now)) }
    ensures kept { EveryPrefixKeeps outputs.now script.now }
{
    let mut state = RadioState::quiet(alloc);
    for event in script {
        state.happen(alloc, outputs, *event)?;
    }
    Ok(state.into_record())
}
