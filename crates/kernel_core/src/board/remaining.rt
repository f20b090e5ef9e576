//! How many accesses the kernel has left up to a commit.

ghost use Rattle.kernel_core.specs.Core.{setup_of};
ghost use Rattle.kernel_core.specs.Costed.{TellsRest};

use crate::board::Core;
use crate::kernel::Kernel;

impl Core {
    /// How many accesses the kernel makes up to and with the commit of the pick that it serves, and 0 behind the commit; none exactly where
    /// it serves no pick. It takes no memory.
    pub fn remaining(&self) -> Option<u32>
        ensures { TellsRest (setup_of self.now.job) self.now.board self.now.board.kernel result }
    {
        match &self.kernel {
            Kernel::Task(machine) => Some(machine.remaining(&self.plan, &self.fram)),
            Kernel::Boot(_) | Kernel::Scan { .. } => None,
        }
    }
}
