//! The lines of the section `[program]`: what a line outside of tasks declares, which instruction a line of a task is, and what each adds to a
//! draft.
#![tactic(auto)]

mod devices;
mod draft;
mod few;
mod forms;
mod labels;
mod named;
mod op;
mod operands;
mod outside;
mod task;

pub use draft::{Draft, DraftInstr, DraftLine, DraftTask};
pub use few::Few;
pub use labels::Labels;
pub use named::{Named, place_of};
pub use op::{DeviceOp, JumpOp, OneOp, Op, ThreeOp, TwoOp};
