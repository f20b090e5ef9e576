//! A program and where its words stand.

ghost use Rattle.ink_layout.specs.Layouts.{IsLayout};

use crate::making::make_layout;
use fram_words::Layout;
use ink_base::NoMemory;
use prog_check::Accepted;
use std::alloc::Global;
use task_isa::Program;

/// An accepted program and its layout.
#[derive(Drop)]
pub struct Plan {
    pub accepted: Accepted,
    pub layout: Layout,
    pub ghost placed: { IsLayout accepted layout },
}

impl Plan {
    ghost use Rattle.std.specs.Prelude.{◌≡◌, IfOk};
    ghost use Rattle.prog_check.specs.Accepted.{IsAccepted};
    ghost use Rattle.ink_layout.specs.Layouts.{IsLayout};

    /// The plan of a program, with the layout that `make_layout` gives.
    pub fn new(alloc: Global, accepted: Accepted) -> Result<Plan, NoMemory>
        ensures { IfOk result (λ plan. plan.accepted ≡ accepted) }
    {
        let layout = make_layout(alloc, &accepted)?;
        Ok(Plan { accepted, layout })
    }

    /// The program; its layout is the plan's.
    pub fn program(&self) -> &Program
        ensures same { result.now ≡ self.now.accepted }
        ensures accepted { IsAccepted self.now.accepted }
        ensures layout { IsLayout self.now.accepted self.now.layout }
    {
        self.accepted.program()
    }
}
