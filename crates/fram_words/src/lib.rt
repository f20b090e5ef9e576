//! The words that outlast a power cut: the accesses to them, where each word stands, and what it holds.
#![tactic(auto)]

mod access;
mod fram;
mod header;
mod held;
mod layout;
mod place;

pub use access::Access;
pub use fram::Fram;
pub use header::Header;
pub use held::{
    Src, due_word, next_word, origin_word, output_word, read_due, read_next, read_origin,
    read_output, read_src, src_word,
};
pub use layout::{Layout, QueuePlace, ThreadPlace};
pub use place::{Place, Step};
