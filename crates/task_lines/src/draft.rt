//! A program as far as it is read.

use crate::few::Few;
use crate::labels::Labels;
use ink_base::ThreadId;
use sqlite_items::Items;
use task_isa::{Instr, Name, PipeDef, Reg, ThreadDef, TimerDef};

/// An instruction as its line gives it: a target is still a name.
#[derive(Drop)]
pub enum DraftInstr {
    /// An instruction without a target.
    Ready(Instr),
    /// A jump to the label.
    Jmp { target: Name },
    /// A jump to the label where `a` is 0.
    Jz { a: Reg, target: Name },
    /// A jump to the label where `a` isn't 0.
    Jnz { a: Reg, target: Name },
    /// The chain goes on with the task.
    Next { task: Name },
}

/// An instruction and the number of its line.
#[derive(Drop)]
pub struct DraftLine {
    pub line: u32,
    pub instr: DraftInstr,
}

/// A task: the number of its line, what its line says, the number of instructions before it, its code, and its labels.
#[derive(Drop)]
pub struct DraftTask {
    pub line: u32,
    pub name: Name,
    pub thread: ThreadId,
    pub limit: u16,
    pub before: u32,
    pub code: Items<DraftLine>,
    pub labels: Labels,
}

/// The declarations so far, the lines of the threads, the task that is open, and the number of all instructions.
#[derive(Drop)]
pub struct Draft {
    pub threads: Few<ThreadDef>,
    pub thread_lines: Items<u32>,
    pub sources: Items<ThreadId>,
    pub pipes: Few<PipeDef>,
    pub timers: Few<TimerDef>,
    pub tasks: Few<DraftTask>,
    pub current: Option<DraftTask>,
    pub count: u32,
}
