//! The registers of a task.

use std::marker::Model;

/// One of the sixteen registers of a task, by its number.
#[derive(Clone, Copy, Debug, PartialEq, Eq)]
pub struct Reg {
    number: u8,
}

impl Model for Reg {
    ghost use Rattle.std.specs.Prelude.{ℕ, ◌<◌};

    ghost Value = { ℕ };

    ghost view = { λ r. r.number };

    ghost invariant = { λ r. r.number < 16 };

    ghost inverse = { λ n. record { number = n } };
}

impl Reg {
    ghost use Rattle.std.specs.Prelude.{◌≡◌, ◌<◌};

    /// The register of this number.
    pub fn new(number: u8) -> Reg
        requires { number < 16 }
        ensures { result ≡ number }
    {
        Reg { number }
    }

    /// Its number, which is below 16.
    pub fn number(self) -> u8
        ensures same { result ≡ self }
        ensures small { result < 16 }
    {
        self.number
    }
}
