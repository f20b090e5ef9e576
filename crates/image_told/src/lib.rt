//! What the words of a board tell: the word of each place, the committed copy of a thread's block, its queue, and its sources.
#![tactic(auto)]

mod events;
mod pipes;
mod queue;
mod source;
mod words;

pub use events::{held, held_at, held_count, held_event, own_before, own_events, published};
pub use pipes::{taken, written};
pub use queue::{event_at, event_in, fed, is_finished, places, released, slot_of, slot_place};
pub use source::{ToldSource, is_one_more, told_source};
pub use words::{committed_word, header_word, word_at};
