//! What follows an instruction.

use crate::outcome::{Outcome, TrapCode};

/// What follows an instruction: another one, the task's end, or a trap.
#[derive(Clone, Copy)]
pub(crate) enum Flow {
    GoesOn,
    IsOver(Outcome),
    HasTrapped(TrapCode),
}
