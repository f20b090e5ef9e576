//! The start of a charge: the kernel looks for the newest stamp, and releases each finished event whose slot is still full.
#![tactic(auto)]

mod boot_at;
mod laws;
mod machine;

pub use boot_at::BootAt;
pub use laws::{boot_releases, boots_end};
pub use machine::BootMachine;
