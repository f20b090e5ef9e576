//! The machine that serves one pick.

ghost use Rattle.std.specs.Prelude.{◌≡◌, ℕ, ◌<◌, false};
ghost use Rattle.task_isa.specs.declared.program.Program.{Program};
ghost use Rattle.prog_check.specs.Accepted.{IsAccepted};
ghost use Rattle.never_cut.specs.Ranges.{no_count, IsAnswerTo, IsPickOf};
ghost use Rattle.never_cut.specs.Wanted.{IsSlotWanted};
ghost use Rattle.ink_layout.specs.Addresses.{at_layout};
ghost use Rattle.task_run.specs.Machine as machine;
ghost use Rattle.task_run.specs.Fits.{FitsTask, FitsWord};
ghost use Rattle.task_run.specs.Reached.{task_loaded, IsServiceOf};

use crate::ending::Ending;
use crate::execution::Execution;
use crate::following::first_phase;
use crate::phase::Phase;
use fram_words::Access;
use ink_base::TaskId;
use ink_layout::{KernelPoint, Pick, Plan, SlotAt};
use thread_state::Buffer;

/// The machine that serves one pick, by its registers: the pick, the kernel's stamp (the number of commits before this one), the
/// registers of the thread's writes, how the task ends as far as is known, how far its run is, and the access that comes next.
#[derive(Clone, Copy)]
pub struct TaskMachine {
    pub pick: Pick,
    pub stamp: u64,
    pub buffer: Buffer,
    pub ending: Ending,
    pub execution: Execution,
    pub phase: Phase,
}

impl TaskMachine {
    /// The machine before its first access, which can be made for a pick that a scan of an accepted program gives from words in their
    /// ranges.
    pub fn begin(pick: Pick, stamp: u64) -> TaskMachine
        ensures registers { result ≡ machine.begin pick stamp }
        ensures reached { (program : Program) → IsAccepted program → IsPickOf program pick → stamp < no_count → IsServiceOf program result }
    {
        TaskMachine {
            pick,
            stamp,
            buffer: Buffer::begin(pick.commit_word),
            ending: Ending::Done,
            execution: Execution::begin(pick.running.unwrap_or(TaskId(0))),
            phase: first_phase(pick.running),
        }
    }

    /// The pick is served: its last access was made.
    pub fn is_over(&self) -> bool
        ensures { result ≡ machine.is_over self.now.phase }
    {
        matches!(self.phase, Phase::Over)
    }

    /// The next access, to an address of the plan's layout. A word in the range of its place can be taken.
    pub fn want(&self, plan: &Plan) -> Access
        requires { FitsTask plan.now.accepted self.now }
        ensures access { result ≡ at_layout plan.now.layout (machine.want plan.now.accepted self.now) }
        ensures range { (word : ℕ) → IsAnswerTo plan.now.accepted (task_loaded self.now) (machine.want plan.now.accepted self.now) word
            → FitsWord plan.now.accepted self.now.phase word }
    {
        plan.access(self.wants(plan.program()))
    }

    /// Takes the word that the wanted access found, goes on to the next access, and answers what the access means to the never-cut kernel.
    /// Where every word was in the range of its place, the next access can be made, unless the pick is served.
    pub fn take(&mut self, plan: &Plan, word: u64) -> KernelPoint
        requires fits { FitsTask plan.now.accepted self.old }
        requires word { FitsWord plan.now.accepted self.old.phase word }
        ensures registers { self.new ≡ machine.take plan.now.accepted self.old word }
        ensures reached { IsServiceOf plan.now.accepted self.old
            → IsAnswerTo plan.now.accepted (task_loaded self.old) (machine.want plan.now.accepted self.old) word
            → machine.is_over self.new.phase ≡ false → IsServiceOf plan.now.accepted self.new }
        ensures point { result ≡ machine.point self.old }
    {
        let point = self.point();
        self.go_on(plan.program(), word);
        point
    }

    /// The queue and the position of the event that the wanted access acknowledges or releases; none exactly where it is another access.
    pub fn slot_wanted(&self, plan: &Plan) -> Option<SlotAt>
        requires { FitsTask plan.now.accepted self.now }
        ensures slot { result ≡ machine.slot_at self.now self.now.phase }
        ensures own { IsSlotWanted plan.now.accepted (machine.want plan.now.accepted self.now) result }
    {
        let _plan = plan;
        match self.phase {
            Phase::StoreAck { .. } | Phase::StoreEmpty => Some(SlotAt {
                thread: self.pick.thread,
                position: self.pick.position,
            }),
            _ => None,
        }
    }

    /// What the wanted access means to the never-cut kernel, whatever word it finds: what `take` answers.
    #[inline(always)]
    pub fn point(&self) -> KernelPoint
        ensures { result ≡ machine.point self.now }
    {
        match self.phase {
            Phase::StoreCommit => KernelPoint::Commit(self.pick.thread),
            Phase::StoreEmpty => KernelPoint::Release(self.pick.thread),
            _ => KernelPoint::Nothing,
        }
    }
}
