//! The limits of a radio's script.

use ink_base::limits::{LOG_PLACES, THREADS};

/// The most outputs of a board: as many as all threads may log.
pub const OUTPUTS: usize = THREADS * LOG_PLACES as usize;

/// The most lines of a script.
pub const SCRIPT_LINES: usize = 65_536;

/// The greatest number that a script names: of outputs that grow, of a packet.
pub const SCRIPT_NUMBER: u32 = 4_194_304;
