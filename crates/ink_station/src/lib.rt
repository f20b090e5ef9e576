//! A station: many boards, each with a job of its own, run at once.
#![tactic(auto)]

mod laws;
pub mod limits;
mod parts;
mod reading;
mod running;

pub use laws::{lines_stay, stations_tell};
pub use reading::read_station;
pub use running::station;

#[cfg(test)]
mod tests;
