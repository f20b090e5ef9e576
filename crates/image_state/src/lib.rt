//! The state of the never-cut kernel that an image tells, and whether an image is worn.
#![tactic(auto)]

mod devices;
mod outputs;
mod reading;
mod threads;
mod worn;

pub use reading::read_off;
pub use worn::is_worn;
