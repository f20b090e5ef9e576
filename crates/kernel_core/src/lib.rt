//! The board: its words, the kernel, the sources and the clock, and the run of a job on it.
#![tactic(auto)]

mod board;
mod charge_record;
mod kernel;
mod laws;
mod made;
mod recording;
mod run;
mod run_record;
mod start;

pub use board::Core;
pub use charge_record::ChargeRecord;
pub use kernel::Kernel;
pub use laws::{boards_stand, charges_answer, picks_commit};
pub use made::Made;
pub use run_record::RunRecord;
pub use start::prepare;
