//! The kernel and the clock as actors on the queues that threads share.
#![tactic(auto)]

mod access;
mod actor;
mod book;
mod clock;
mod entries;
mod kind;
mod queues;

pub use actor::{KERNEL_ACCESSES, KernelActor, KernelParts};
pub use clock::ClockActor;
pub use kind::Kind;
pub use queues::queues_of;
