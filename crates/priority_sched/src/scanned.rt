//! How a scan ends.

use ink_layout::Pick;

/// What a scan found.
#[derive(Clone, Copy, Debug, PartialEq, Eq)]
pub enum Scanned {
    /// The pending event of a thread, each thread of a higher priority having none.
    Pick(Pick),
    /// No thread has a pending event.
    Quiet,
}
