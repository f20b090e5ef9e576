//! The scan: the kernel looks at the threads from the highest priority down and picks the first pending event. For each thread that is a
//! running chain, else the first event of its queue, else the first item of a pipe that it reads, else a timer that is due.
#![tactic(auto)]

mod chain;
mod event;
mod idle;
mod laws;
mod machine;
mod order;
mod picks;
mod pipes;
mod places;
mod scan_at;
mod scanned;
mod steps;

pub use chain::Chain;
pub use idle::{Idle, Waiting};
pub use laws::{scan_picks, scans_end};
pub use machine::ScanMachine;
pub use scan_at::ScanAt;
pub use scanned::Scanned;
