//! The text that a board prints of a run.
#![tactic(auto)]

mod charge_bounds;
mod flags;
mod journal;
mod json;
mod lines;
mod names;
mod radio;
mod report;
mod summary;
mod sweep;

pub use charge_bounds::{ChargeBounds, bounds};
pub use flags::Flags;
pub use journal::put_entries;
pub use json::put_json;
pub use lines::put_summary;
pub use radio::radio_text;
pub use report::{put_head, run_text};
pub use summary::{SourceSummary, Summary, ThreadSummary};
pub use sweep::{SweepRow, SweepTable, sweep_text};
