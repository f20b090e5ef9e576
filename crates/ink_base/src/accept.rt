//! What a queue has taken.

use crate::ids::SourceId;

/// An event that a queue has accepted: its source, the number of its reading, and its value.
#[derive(Clone, Copy, Debug, PartialEq, Eq)]
pub struct Accept {
    pub source: SourceId,
    pub reading: u32,
    pub value: u32,
}
