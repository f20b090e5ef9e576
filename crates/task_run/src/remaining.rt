//! How many accesses are left up to the commit.

ghost use Rattle.std.specs.Prelude.{◌≡◌};
ghost use Rattle.fram_words.specs.Shape.{memory_of};
ghost use Rattle.ink_layout.specs.Shape.{shape_of};
ghost use Rattle.task_run.specs.Remaining.{is_committed, GoesOnAlone, IsRemaining};

use crate::ahead::Ahead;
use crate::machine::TaskMachine;
use crate::phase::Phase;
use fram_words::Fram;
use ink_layout::Plan;

impl TaskMachine {
    /// How many accesses the machine makes up to and with the store of the commit word, and 0 after that store: as many as it would make on
    /// these words with nobody beside it. What sources and clock do meanwhile doesn't change the number. The words are those that its
    /// accesses so far have found and left, and each that it finds up to the commit lies in the range of its place. It takes no memory.
    pub fn remaining(&self, plan: &Plan, fram: &Fram) -> u32
        requires { GoesOnAlone plan.now.accepted (memory_of (shape_of plan.now.accepted) fram.now) self.now }
        ensures { IsRemaining plan.now.accepted (memory_of (shape_of plan.now.accepted) fram.now) self.now result }
    {
        if self.is_committed() {
            return 0;
        }
        let _program = plan.program();
        let mut ahead = Ahead::begin(self, plan, fram);
        let mut count = 0;
        while !ahead.machine.is_committed() {
            let step = ahead.wanted(plan);
            let word = ahead.found(plan, fram, step);
            ahead.take(plan, step, word);
            count += 1;
        }
        count
    }

    // The store of the commit word was made.
    pub(crate) fn is_committed(&self) -> bool
        ensures { result ≡ is_committed self.now.phase }
    {
        matches!(
            self.phase,
            Phase::StoreAck { .. } | Phase::StoreEmpty | Phase::Over
        )
    }
}
