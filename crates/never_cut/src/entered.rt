//! What an open replay answers to an entry.

/// What an open replay answers to an entry.
#[derive(Clone, Copy, Debug, PartialEq, Eq)]
pub enum Entered {
    /// The entry was legal, and its effect is made.
    Made,
    /// The entry isn't legal here, and nothing changed.
    Illegal,
}
