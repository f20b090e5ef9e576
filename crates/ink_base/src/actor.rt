//! Who makes an access.

use crate::ids::SourceId;

/// Whose turn an access to the FRAM is.
#[derive(Clone, Copy)]
pub enum Actor {
    /// The kernel.
    Kernel,
    /// A source of readings.
    Source(SourceId),
    /// The clock, which adds one tick.
    Clock,
}
