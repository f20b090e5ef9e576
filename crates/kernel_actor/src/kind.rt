//! Whose word an access of the kernel is of.
ghost use Rattle.std.specs.Prelude.{◌≡◌};
ghost use Rattle.kernel_actor.specs.Kinds.{kind_of, boot_kind, scan_kind, task_kind};

use ink_layout::SlotAt;
use kernel_core::Kernel;
use priority_sched::{ScanAt, ScanMachine};
use reboot::{BootAt, BootMachine};
use task_run::{Phase, TaskMachine};

/// What the next access of the kernel is to.
#[derive(Clone, Copy, Debug, PartialEq, Eq)]
pub enum Kind {
    /// A word that nobody else reads or writes.
    Own,
    /// The clock, which is loaded.
    Clock,
    /// The slot of a position of a queue, which is loaded.
    Look(SlotAt),
    /// The acknowledgement of the event of that position, which is stored.
    Acknowledge(SlotAt),
    /// The slot of that position, which is emptied.
    Release(SlotAt),
}

/// The kind of the kernel's next access.
pub fn kind_of(kernel: &Kernel) -> Kind
    ensures { result ≡ kind_of kernel.now }
{
    match kernel {
        Kernel::Boot(boot) => boot_kind(boot),
        Kernel::Scan { scan, .. } => scan_kind(scan),
        Kernel::Task(machine) => task_kind(machine),
    }
}

fn boot_kind(boot: &BootMachine) -> Kind
    ensures { result ≡ boot_kind boot.now.thread boot.now.at }
{
    let thread = boot.thread;
    match boot.at {
        BootAt::Slot { position } => Kind::Look(SlotAt { thread, position }),
        BootAt::Ack { position, .. } => Kind::Acknowledge(SlotAt { thread, position }),
        BootAt::Empty { position } => Kind::Release(SlotAt { thread, position }),
        _ => Kind::Own,
    }
}

fn scan_kind(scan: &ScanMachine) -> Kind
    ensures { result ≡ scan_kind scan.now.thread scan.now.at }
{
    match scan.at {
        ScanAt::Slot { position, .. } => Kind::Look(SlotAt {
            thread: scan.thread,
            position,
        }),
        ScanAt::Clock | ScanAt::Picked { .. } | ScanAt::Quiet => Kind::Clock,
        _ => Kind::Own,
    }
}

fn task_kind(machine: &TaskMachine) -> Kind
    ensures { result ≡ task_kind machine.now.pick machine.now.phase }
{
    let at = SlotAt {
        thread: machine.pick.thread,
        position: machine.pick.position,
    };
    match machine.phase {
        Phase::StoreAck { .. } => Kind::Acknowledge(at),
        Phase::StoreEmpty => Kind::Release(at),
        Phase::Over => Kind::Clock,
        _ => Kind::Own,
    }
}
