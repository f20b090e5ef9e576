//! The limits of a station.

/// The most boards of a station.
pub const BOARDS: usize = 16;
