//! Timers that take power failures into account, and the expiry of chains: all by ticks of the clock that keeps running in the dark.
#![tactic(auto)]

mod due;

pub use due::{after_service, armed, due_at, is_due, is_expired};
