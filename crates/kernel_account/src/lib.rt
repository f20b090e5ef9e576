//! The account of a kernel that sees its queues only by its own looks.
//!
//! Where queues are fed by threads there is no one journal. What stays is what the kernel did, told by itself: when it scanned, where it
//! looked, what it committed and released. Whoever knows the events that each queue has had in the end can replay that.
#![tactic(auto)]

mod entry;
mod laws;

pub use entry::KernelEntry;
pub use laws::accounts_follow;
