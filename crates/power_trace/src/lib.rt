//! Jobs: a program, the readings of its sources and its power trace.
#![tactic(auto)]

mod charges;
mod generator;
mod parse;
mod power;
mod readings;
mod sensors;
mod soak;
mod soak_program;
mod tails;

pub use job_parts::{Charge, Item, Job, Start};
pub use parse::{Parts, parse_job, parse_parts, parse_with_lines};
pub use power::read_power;
pub use sensors::read_sensors;
pub use soak::soak_job;
pub use tails::Tails;
