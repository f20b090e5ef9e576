//! An energy plan of a program: for each task a bound on the kernel's accesses from a pick to its commit, with what shows that it is one.
#![tactic(auto)]

mod bounds;
mod checking;
mod code;
mod making;
mod plan;
mod text;

pub use checking::check_plan;
pub use making::make_plan;
pub use plan::{EnergyPlan, TaskPlan};
pub use text::{paths_text, plan_text};
