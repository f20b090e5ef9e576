//! What a job is made of: an accepted program, the readings of its sources, the charges with their turns, and where its run begins.
#![tactic(auto)]

mod charge;
mod copying;
mod item;
mod job;
mod start;

pub use charge::Charge;
pub use item::Item;
pub use job::Job;
pub use start::Start;
