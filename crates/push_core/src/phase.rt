//! How far a source is with its next reading.

/// How far a source is with its next reading.
#[derive(Clone, Copy, Debug, PartialEq, Eq)]
pub enum Phase {
    /// It is still finding out which reading is next.
    Boot,
    /// The next reading is neither published nor refused.
    Ready,
    /// The next reading stands in the queue, and SRC doesn't count it yet.
    Published,
    /// The queue was full at the next reading, and SRC doesn't skip it yet.
    Refused,
}
