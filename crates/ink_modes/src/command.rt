//! What the program can be asked to do.

ghost use Rattle.std.specs.Prelude.{◌↔◌, IsTrue};
ghost use Rattle.ink_modes.specs.Form.{FitsFlag, FitsSeed, IsAllowed};

use crate::modes::Mode;
use ink_report::Flags;

/// What the words of the command line ask for: what is done, and with which flags.
#[derive(Clone, Copy)]
pub struct Command {
    pub mode: Mode,
    pub flags: Flags,
}

/// Which flags a mode may have. One that may have a seed has one.
#[derive(Clone, Copy)]
pub struct Allowed {
    pub journal: bool,
    pub json: bool,
    pub bounds: bool,
    pub image: bool,
    pub seed: bool,
}

// A flag is there only where it is allowed.
fn fits_flag(allowed: bool, given: bool) -> bool
    ensures { IsTrue result ↔ FitsFlag allowed given }
{
    allowed || !given
}

// A seed is there exactly where it is allowed.
fn fits_seed(allowed: bool, seed: Option<u32>) -> bool
    ensures { IsTrue result ↔ FitsSeed allowed seed }
{
    allowed == seed.is_some()
}

impl Allowed {
    /// No flag.
    pub const NONE: Allowed = Allowed {
        journal: false,
        json: false,
        bounds: false,
        image: false,
        seed: false,
    };

    /// Whether these flags are allowed, and none is wanted besides.
    pub fn allows(self, flags: Flags) -> bool
        ensures { IsTrue result ↔ IsAllowed self flags }
    {
        fits_flag(self.journal, flags.journal)
            && fits_flag(self.json, flags.json)
            && fits_flag(self.bounds, flags.bounds)
            && fits_flag(self.image, flags.image)
            && fits_seed(self.seed, flags.seed)
    }
}
