//! The code of a task: what its instructions take, where they may go, and whether they can trap.

ghost use Rattle.std.specs.Prelude.{◌≡◌, ◌+◌, ◌*◌, ◌<◌, ◌≤◌, Some, None, length};
ghost use Rattle.prog_check.specs.Accepted.{ends_code};
ghost use Rattle.prog_check.specs.Lookup.{instr_at};
ghost use Rattle.std.specs.List.{list_any};
ghost use Rattle.ink_plan.specs.Code.{weight, target_of, may_follow, ends_task, jumps_up, goes_up, is_forward, greatest_weight, may_trap, can_trap};

use task_isa::{Instr, Task};

/// The instruction at an offset; past the code, the end of the task.
pub(crate) fn instr_at(task: &Task, at: usize) -> Instr
    ensures { result ≡ instr_at task.now at }
{
    task.code.as_slice().get(at).copied().unwrap_or(Instr::Done)
}

/// How many accesses an instruction takes at most, its fetch included.
pub(crate) fn weight(instr: &Instr) -> u32
    ensures same { result ≡ weight instr.now }
    ensures few { result ≤ 6 }
{
    match instr {
        Instr::Send { .. } => 6,
        Instr::Out { .. } => 4,
        Instr::Arm { .. } => 3,
        Instr::Ld { .. } | Instr::St { .. } | Instr::Stop { .. } => 2,
        _ => 1,
    }
}

/// The offset that an instruction may jump to.
pub(crate) fn target_of(instr: &Instr) -> Option<u32>
    ensures { result ≡ target_of instr.now }
{
    match instr {
        Instr::Jmp { i } | Instr::Jz { i, .. } | Instr::Jnz { i, .. } => Some(*i),
        _ => None,
    }
}

/// Whether no further instruction follows at once: behind a jump without a condition, and at an end of the task.
pub(crate) fn ends_code(instr: &Instr) -> bool
    ensures { result ≡ ends_code instr.now }
{
    matches!(instr, Instr::Jmp { .. } | Instr::Next { .. } | Instr::Done)
}

/// Whether the task may go on at an offset behind the instruction at another one.
pub(crate) fn may_follow(task: &Task, at: u16, next: u16) -> bool
    ensures { result ≡ may_follow task.now at next }
{
    let instr = instr_at(task, usize::from(at));
    (!ends_code(&instr) && u32::from(next) == u32::from(at) + 1)
        || target_of(&instr) == Some(u32::from(next))
}

/// Whether the task is over behind an instruction.
pub(crate) fn ends_task(instr: &Instr) -> bool
    ensures { result ≡ ends_task instr.now }
{
    matches!(instr, Instr::Next { .. } | Instr::Done)
}

/// Whether each jump goes to a later instruction, and the limit allows as many instructions as there are.
pub(crate) fn is_forward(task: &Task) -> bool
    ensures { result ≡ is_forward task.now }
{
    task.code.len() <= usize::from(task.limit) && goes_up(task)
}

#[tactic(auto, using(crate::proofs::Below::below_zero, crate::proofs::Below::below_more, crate::proofs::Below::below_not))]
fn goes_up(task: &Task) -> bool
    ensures { result ≡ goes_up task.now }
{
    for at in 0..task.code.len() {
        if !jumps_up(at, target_of(&instr_at(task, at))) {
            return false;
        }
    }
    true
}

fn jumps_up(at: usize, target: Option<u32>) -> bool
    ensures { result ≡ jumps_up at target }
{
    match target {
        None => true,
        Some(i) => at < i as usize,
    }
}

/// How many accesses the heaviest instruction takes.
pub(crate) fn greatest_weight(code: &[Instr]) -> u32
    ensures same { result ≡ greatest_weight code.now }
    ensures few { result ≤ 6 }
{
    let mut greatest = 0;
    for instr in code {
        greatest = greatest.max(weight(instr));
    }
    greatest
}

fn may_trap(instr: &Instr) -> bool
    ensures { result ≡ may_trap instr.now }
{
    matches!(
        instr,
        Instr::Divu { .. }
            | Instr::Remu { .. }
            | Instr::Ld { .. }
            | Instr::St { .. }
            | Instr::Out { .. }
    )
}

/// Whether a task can trap: at its limit, or by one of its instructions.
pub(crate) fn can_trap(task: &Task) -> bool
    ensures { result ≡ can_trap task.now }
{
    !is_forward(task) || has_trap(task.code.as_slice())
}

fn has_trap(code: &[Instr]) -> bool
    ensures { result ≡ list_any may_trap code.now }
{
    for instr in code {
        if may_trap(instr) {
            return true;
        }
    }
    false
}
