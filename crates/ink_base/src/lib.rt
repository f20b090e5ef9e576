//! What every layer speaks of: ids, events, journal entries, outputs, the limits of a job, the words of a text and their checks, and the answers.
#![tactic(auto)]

mod accept;
mod actor;
pub mod checks;
mod entry;
mod event;
mod fault;
mod ids;
pub mod limits;
mod line_error;
pub mod lines;
mod memory;
mod output;
mod phase;
mod split;
mod status;
mod token;

pub use accept::Accept;
pub use actor::Actor;
pub use entry::Entry;
pub use event::{Event, Origin};
pub use fault::{Cause, JobAnswer, JobFault};
pub use ids::{Addr, PipeId, SourceId, TaskId, ThreadId, TimerId};
pub use line_error::LineError;
pub use memory::NoMemory;
pub use output::Output;
pub use phase::job_tokens;
pub use split::split_tokens;
pub use status::Status;
pub use token::{TextAnswer, Token, Tokens};
