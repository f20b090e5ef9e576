//! The words of a live board at the end, and the state that they stand for.
#![tactic(auto)]

mod finals;
mod laws;

pub use finals::final_words;
pub use laws::ends_stand;
