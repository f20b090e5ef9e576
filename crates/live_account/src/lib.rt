//! What a live board leaves behind, and when that is right.
//!
//! Where sources, clock and kernel run as threads there is no one journal. What is left is, queue by queue, what was accepted and what was
//! refused, and what the kernel tells of itself, charge by charge.
#![tactic(auto)]

mod record;

pub use record::{LiveRecord, Refusal};
