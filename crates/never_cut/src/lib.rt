//! The kernel that is never cut: its state, the journal of a run, and the state after it.
#![tactic(auto)]

mod copying;
mod effects;
mod entered;
mod entering;
mod evaluating;
mod images;
mod journal;
mod kept_outputs;
mod laws;
mod legal;
mod model;
mod opening;
mod parts;
mod pending;
mod pipe_model;
mod replay_fault;
mod replaying;
mod scan_model;
mod serving;
mod source_model;
mod thread_model;
mod timer_model;

pub use entered::Entered;
pub use images::images_stand;
pub use journal::{replay, replay_from};
pub use laws::{devices_stand, journals_keep};
pub use model::Model;
pub use pipe_model::PipeModel;
pub use replay_fault::ReplayFault;
pub use replaying::Replaying;
pub use scan_model::ScanModel;
pub use source_model::SourceModel;
pub use thread_model::ThreadModel;
pub use timer_model::TimerModel;
