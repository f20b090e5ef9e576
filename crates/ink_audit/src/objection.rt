//! What ends the reading of a claim before its end.

use ink_base::NoMemory;
use std::alloc::AllocFailed;

/// What ends the reading of a claim before its end.
#[derive(Clone, Copy, Debug)]
pub enum Objection {
    /// Something is wrong, and this line shows it.
    Line(u32),
    /// There was no memory.
    NoMemory,
}

impl From<NoMemory> for Objection {
    ghost use Rattle.std.specs.Prelude.{◌≡◌};
    ghost use Rattle.ink_audit.specs.declared.objection.Objection.TheVariants as objections;

    ghost from_gives = { λ _ objection. objection ≡ objections.NoMemory };

    fn from(_e: NoMemory) -> Objection {
        Objection::NoMemory
    }
}

impl<T: Drop> From<AllocFailed<T>> for Objection {
    ghost use Rattle.std.specs.Prelude.{◌≡◌};
    ghost use Rattle.ink_audit.specs.declared.objection.Objection.TheVariants as objections;

    ghost from_gives = { λ _ objection. objection ≡ objections.NoMemory };

    fn from(_e: AllocFailed<T>) -> Objection {
        Objection::NoMemory
    }
}
