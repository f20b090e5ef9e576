//! Whether a text is what a run of a job prints with its journal.
#![tactic(auto)]

mod auditing;
mod claim;
mod comparing;
mod entry;
mod laws;
mod objection;
mod operands;
mod verdict;

pub use auditing::audit;
pub use entry::read_entry;
pub use laws::verdicts_are_right;
pub use verdict::Verdict;
