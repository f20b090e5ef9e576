//! Why a journal isn't replayed.

use ink_base::NoMemory;

/// Why a journal isn't replayed.
#[derive(Clone, Copy, Debug, PartialEq, Eq)]
pub enum ReplayFault {
    /// The entry of this index isn't legal, and all before it are.
    Illegal(u32),
    /// There was no memory.
    NoMemory,
}

impl From<NoMemory> for ReplayFault {
    ghost use Rattle.std.specs.Prelude.{◌≡◌};
    ghost use Rattle.never_cut.specs.declared.replay_fault.ReplayFault.TheVariants as faults;

    ghost from_gives = { λ _ fault. fault ≡ faults.NoMemory };

    fn from(_e: NoMemory) -> ReplayFault {
        ReplayFault::NoMemory
    }
}
