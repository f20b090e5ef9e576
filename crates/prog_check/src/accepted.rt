//! Programs that a board accepts.

use crate::try_copy::TryCopy;
use ink_base::NoMemory;
use std::alloc::Global;
use std::marker::Model;
use task_isa::Program;

/// A program within the limits whose owners and targets are right. Contracts see it as the program.
#[derive(Drop)]
pub struct Accepted {
    program: Program,
}

impl Model for Accepted {
    ghost use Rattle.task_isa.specs.declared.program.Program.{Program};
    ghost use Rattle.prog_check.specs.Accepted.{IsAccepted};

    ghost Value = { Program };

    ghost view = { λ a. a.program };

    ghost invariant = { λ a. IsAccepted a.program };
}

impl Accepted {
    ghost use Rattle.std.specs.Prelude.{◌≡◌, IfOk};
    ghost use Rattle.prog_check.specs.Accepted.{IsAccepted};

    pub(crate) fn new(program: Program) -> Accepted
        requires { IsAccepted program }
        ensures { result ≡ program }
    {
        Accepted { program }
    }

    /// The program.
    pub fn program(&self) -> &Program
        ensures same { result.now ≡ self.now }
        ensures accepted { IsAccepted self.now }
    {
        &self.program
    }

    /// An equal value.
    pub fn copy(&self, alloc: Global) -> Result<Accepted, NoMemory>
        ensures { IfOk result (λ copy. copy ≡ self.now) }
    {
        let program = self.program.try_copy(alloc)?;
        Ok(Accepted { program })
    }
}
