//! The runs of a job whose first charge is cut after each of its turns, and the numbers that each of them comes to.
#![tactic(auto)]

mod laws;
mod limit;
mod running;
mod sweeping;
mod told;

pub use laws::cuts_take;
pub use limit::line_past;
pub use sweeping::sweep;
