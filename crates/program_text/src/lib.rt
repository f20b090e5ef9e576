//! The canonical text of a program, which reads as the same program again.
#![tactic(auto)]

mod instruction;
mod marks;
mod parts;
mod program;

pub use program::print_program;
