//! What an access of a source adds to the journal.

/// What an access of a source adds to the journal.
#[derive(Clone, Copy, Debug, PartialEq, Eq)]
pub enum Point {
    /// No entry.
    Nothing,
    /// The next reading is in the queue.
    Pushed,
    /// The queue was full at the next reading.
    Refused,
    /// The refused reading is given up.
    Skipped,
}
