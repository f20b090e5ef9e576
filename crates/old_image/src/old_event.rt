//! An event as a slot of the earlier form holds it.

use ink_base::SourceId;

/// The event of a reading: its source, its number among the source's readings from 0, and its value.
#[derive(Clone, Copy, Debug, PartialEq, Eq)]
pub struct OldEvent {
    pub source: SourceId,
    pub reading: u16,
    pub value: u16,
}
