//! Boot, scan and task as one machine.
ghost use Rattle.std.specs.Prelude.{◌≡◌, ℕ, ◌<◌};
ghost use Rattle.task_isa.specs.declared.program.Program.{Program};
ghost use Rattle.prog_check.specs.Accepted.{IsAccepted};
ghost use Rattle.never_cut.specs.Ranges.{no_count, IsAnswerTo};
ghost use Rattle.never_cut.specs.Wanted.{IsSlotWanted};
ghost use Rattle.ink_layout.specs.Addresses.{at_layout};
ghost use Rattle.kernel_core.specs.Kernel.{first_kernel, begin_scan, wants, takes, point_found, slot_wanted};
ghost use Rattle.kernel_core.specs.Fits.{CanWant, CanTake};
ghost use Rattle.kernel_core.specs.Reached.{loaded, stamp_of, IsKernelOf};

use fram_words::Access;
use ink_layout::{KernelPoint, Plan, SlotAt};
use priority_sched::{ScanMachine, Scanned};
use reboot::BootMachine;
use task_run::TaskMachine;

/// The kernel, by its registers: in the boot of a charge, in a scan, or in the service of a pick. The stamp is the number of commits so far.
#[derive(Clone, Copy)]
pub enum Kernel {
    Boot(BootMachine),
    Scan { stamp: u64, scan: ScanMachine },
    Task(TaskMachine),
}

impl Kernel {
    /// The registers in which a charge begins. The first access can be made on the board of any accepted program.
    pub fn boot() -> Kernel
        ensures begun { result ≡ first_kernel }
        ensures reached { (program : Program) → IsAccepted program → IsKernelOf program result }
    {
        Kernel::Boot(BootMachine::begin())
    }

    /// The next access, to an address of the plan's layout. A word in the range of its place can be taken.
    pub fn want(&self, plan: &Plan) -> Access
        requires { CanWant plan.now.accepted self.now }
        ensures access { result ≡ at_layout plan.now.layout (wants plan.now.accepted self.now) }
        ensures range { (word : ℕ) → IsAnswerTo plan.now.accepted (loaded self.now) (wants plan.now.accepted self.now) word
            → CanTake plan.now.accepted self.now word }
    {
        match self {
            Kernel::Boot(boot) => boot.want(plan),
            Kernel::Scan { scan, .. } => scan.want(plan),
            Kernel::Task(machine) => machine.want(plan),
        }
    }

    /// Takes the word that the wanted access found, goes on to the next access, and answers what the access means to the never-cut
    /// kernel. The end of a boot or a service begins a scan, a pick its service, and a quiet scan a new one. Where every word was in the
    /// range of its place, and the stamp is below 4,294,967,295, the next access can be made.
    pub fn take(&mut self, plan: &Plan, word: u64) -> KernelPoint
        requires { CanTake plan.now.accepted self.old word }
        ensures registers { self.new ≡ takes plan.now.accepted self.old word }
        ensures reached { IsKernelOf plan.now.accepted self.old
            → IsAnswerTo plan.now.accepted (loaded self.old) (wants plan.now.accepted self.old) word
            → stamp_of self.old < no_count → IsKernelOf plan.now.accepted self.new }
        ensures point { result ≡ point_found plan.now.accepted self.old word }
    {
        let _program = plan.program();
        match self {
            Kernel::Boot(boot) => {
                let point = boot.take(plan, word);
                if let Some(stamp) = boot.stamp() {
                    *self = begin_scan(stamp);
                }
                point
            }
            Kernel::Scan { stamp, scan } => {
                let point = scan.take(plan, word);
                match scan.result() {
                    Some(Scanned::Pick(pick)) => {
                        *self = Kernel::Task(TaskMachine::begin(pick, *stamp));
                    }
                    Some(Scanned::Quiet) => scan.begin_again(),
                    None => {}
                }
                point
            }
            Kernel::Task(machine) => {
                let point = machine.take(plan, word);
                if machine.is_over() {
                    *self = begin_scan(machine.stamp + 1);
                }
                point
            }
        }
    }

    /// What the wanted access means to the never-cut kernel, where it found this word: what `take` answers.
    #[inline(always)]
    pub fn point(&self, word: u64) -> KernelPoint
        ensures { (program : Program) → result ≡ point_found program self.now word }
    {
        match self {
            Kernel::Boot(boot) => boot.point(),
            Kernel::Scan { scan, .. } => scan.point(word),
            Kernel::Task(machine) => machine.point(),
        }
    }

    /// The queue and the position of the event that the wanted access looks for, acknowledges or releases; none exactly where it is
    /// another access.
    pub fn slot_wanted(&self, plan: &Plan) -> Option<SlotAt>
        requires { CanWant plan.now.accepted self.now }
        ensures slot { result ≡ slot_wanted self.now }
        ensures own { IsSlotWanted plan.now.accepted (wants plan.now.accepted self.now) result }
    {
        match self {
            Kernel::Boot(boot) => boot.slot_wanted(plan),
            Kernel::Scan { scan, .. } => scan.slot_wanted(plan),
            Kernel::Task(machine) => machine.slot_wanted(plan),
        }
    }
}

fn begin_scan(stamp: u64) -> Kernel
    ensures { result ≡ begin_scan stamp }
{
    Kernel::Scan {
        stamp,
        scan: ScanMachine::begin(),
    }
}
