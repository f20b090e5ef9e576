//! How many accesses of the kernel the parts of a charge take at most.

ghost use Rattle.std.specs.Prelude.{◌≡◌, ◌<◌, ◌≤◌};
ghost use Rattle.ink_layout.specs.Shape.{pages_of};
ghost use Rattle.never_cut.specs.Bounds as never_cut;
ghost use Rattle.prog_check.specs.Accepted.{IsAccepted, IsRightTask};
ghost use Rattle.ink_report.specs.Bounds.{bounds_of, bounds_shown};

use crate::flags::Flags;
use fram_words::Header;
use ink_base::limits::STATE_NUMBERS;
use prog_check::Accepted;
use task_isa::{Program, Task, ThreadDef};

/// By how many accesses of the kernel a charge is sized.
#[derive(Clone, Copy, Debug, PartialEq, Eq)]
pub struct ChargeBounds {
    /// The bound of the boot.
    pub boot: u64,
    /// The bound of a scan and the service of the event that it picks.
    pub round: u64,
}

/// The bounds of a program, in accesses of the kernel. They follow from its declarations, as the definitions `boot_bound` and
/// `round_bound` of never_cut say: from how many threads, pipes and timers there are, from the limit of each task, and from the state of
/// its thread.
pub fn bounds(program: &Accepted) -> ChargeBounds
    ensures { result ≡ bounds_of program.now }
{
    let program = program.program();
    ChargeBounds {
        boot: 4 * program.threads.len() as u64 + 2,
        round: scan_bound(program) + u64::from(greatest_task_bound(program)),
    }
}

/// The bounds of a program, where they are asked for.
pub(crate) fn bounds_shown(program: &Accepted, flags: Flags) -> Option<ChargeBounds>
    ensures { result ≡ bounds_shown program.now flags }
{
    if flags.bounds {
        Some(bounds(program))
    } else {
        None
    }
}

// A scan, with the pick that ends it.
fn scan_bound(program: &Program) -> u64
    requires { IsAccepted program.now }
    ensures bound { result ≡ never_cut.scan_bound program.now }
    ensures few { result < 1000 }
{
    let threads = program.threads.len() as u64;
    let pipes = program.pipes.len() as u64;
    let timers = program.timers.len() as u64;
    4 * threads + 3 * pipes + timers + 3
}

// The greatest of the bounds of services by the program's tasks.
fn greatest_task_bound(program: &Program) -> u32
    requires { IsAccepted program.now }
    ensures { result ≡ never_cut.greatest_of program.now program.now.tasks }
{
    let mut greatest = 0;
    for task in program.tasks.as_slice() {
        greatest = greatest.max(task_bound(program, task));
    }
    greatest
}

// The service of an event by a task.
fn task_bound(program: &Program, task: &Task) -> u32
    requires program { IsAccepted program.now }
    requires task { IsRightTask program.now task.now }
    ensures { result ≡ never_cut.task_bound program.now task.now }
{
    let thread = &program.threads.as_slice()[task.thread.0 as usize];
    32 * page_count(thread) + 6 * u32::from(task.limit) + 18
}

// How many pages the block of a thread has.
fn page_count(thread: &ThreadDef) -> u32
    requires { thread.now.state ≤ STATE_NUMBERS }
    ensures number { result ≡ pages_of thread.now }
    ensures few { result < 64 }
{
    Header::WORDS / 8 + u32::from(thread.state).div_ceil(8)
}
