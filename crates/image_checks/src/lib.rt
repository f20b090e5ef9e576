//! The checks of an image: whether the words of a board are one, and the place at which they fail to be.
#![tactic(auto)]

mod blocks;
mod chains;
mod code;
mod first;
mod headers;
mod laws;
mod logs;
mod owners;
mod pipes;
mod queues;
mod sources;

pub use blocks::{block_place, is_block_word, page_count};
pub use code::{failing_code, failing_commit_word};
pub use first::first_failing;
pub use laws::images_hold;
pub use logs::failing_output_word;
pub use pipes::failing_pipe;
