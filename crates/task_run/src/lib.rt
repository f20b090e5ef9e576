//! The service of one pick of a scan, an access at a time: the event's words, a task, its end, the commit, and the release of the event.
#![tactic(auto)]

mod acting;
mod ahead;
mod ending;
mod execution;
mod following;
mod laws;
mod machine;
mod page_of;
mod parts;
mod phase;
mod pipe_at;
mod remaining;
mod sending;
mod steps;
mod want;

pub use ending::Ending;
pub use execution::Execution;
pub use laws::{services_cost, services_end, tasks_commit};
pub use machine::TaskMachine;
pub use phase::Phase;
pub use sending::Sending;
