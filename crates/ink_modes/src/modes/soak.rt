//! `soak`: the board of the job that is generated from the seed is run, and the text of the run is written without its outputs.

use crate::command::Allowed;
pub use crate::modes::run::make;

/// It has a seed, and may show the journal, JSON and the bounds of a charge.
pub const ALLOWED: Allowed = Allowed {
    journal: true,
    json: true,
    bounds: true,
    seed: true,
    ..Allowed::NONE
};
