//! How many accesses of the kernel a service, and a charge with one, take at most.

ghost use Rattle.std.specs.Prelude.{◌≡◌, ◌+◌, ◌<◌, ◌≤◌, length};
ghost use Rattle.ink_layout.specs.Shape.{pages_of};
ghost use Rattle.never_cut.specs.Bounds.{boot_bound, scan_bound};
ghost use Rattle.prog_check.specs.Accepted.{IsAccepted};
ghost use Rattle.ink_plan.specs.Plans.{bound_of, greatest_bound, least_of};

use crate::code::can_trap;
use crate::plan::TaskPlan;
use fram_words::Header;
use ink_base::limits::STATE_NUMBERS;
use task_isa::{Program, Task, ThreadDef};

/// The bound of a task's services, by how many accesses its instructions take.
pub(crate) fn bound_of(program: &Program, task: &Task, code: u32) -> u64
    requires program { IsAccepted program.now }
    requires thread { task.now.thread.0 < length program.now.threads }
    ensures same { result ≡ bound_of program.now task.now code }
    ensures few { result ≤ code + 2000 }
{
    let thread = &program.threads.as_slice()[usize::from(task.thread.0)];
    let attempts = if can_trap(task) { 2 } else { 1 };
    u64::from(code) + attempts * (16 * u64::from(page_count(thread)) + 5) + 6
}

// How many pages the block of a thread has.
fn page_count(thread: &ThreadDef) -> u32
    requires { thread.now.state ≤ STATE_NUMBERS }
    ensures number { result ≡ pages_of thread.now }
    ensures few { result < 64 }
{
    Header::WORDS / 8 + u32::from(thread.state).div_ceil(8)
}

/// How many accesses a charge should have at least.
pub(crate) fn least_of(program: &Program, plans: &[TaskPlan]) -> u64
    requires { IsAccepted program.now }
    ensures { result ≡ least_of program.now plans.now }
{
    boot_bound(program) + scan_bound(program) + 2 + u64::from(greatest_bound(plans))
}

fn boot_bound(program: &Program) -> u64
    requires { IsAccepted program.now }
    ensures bound { result ≡ boot_bound program.now }
    ensures few { result < 1000 }
{
    4 * program.threads.len() as u64 + 2
}

fn scan_bound(program: &Program) -> u64
    requires { IsAccepted program.now }
    ensures bound { result ≡ scan_bound program.now }
    ensures few { result < 1000 }
{
    let threads = program.threads.len() as u64;
    let pipes = program.pipes.len() as u64;
    let timers = program.timers.len() as u64;
    4 * threads + 3 * pipes + timers + 3
}

fn greatest_bound(plans: &[TaskPlan]) -> u32
    ensures { result ≡ greatest_bound plans.now }
{
    let mut greatest = 0;
    for plan in plans {
        greatest = greatest.max(plan.bound);
    }
    greatest
}
