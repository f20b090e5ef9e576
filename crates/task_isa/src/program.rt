//! What a task program declares.

use crate::instr::Instr;
use crate::name::Name;
use ink_base::ThreadId;
use sqlite_items::Items;

/// A thread: its priority (a greater number is served first), the places of its queue, its state numbers, the places of its
/// output log, and after how many ticks a chain of it expires, if it does.
#[derive(Drop)]
pub struct ThreadDef {
    pub name: Name,
    pub priority: u8,
    pub queue: u8,
    pub state: u16,
    pub log: u16,
    pub expires: Option<u32>,
}

/// A pipe of so many places, from the thread that writes it to the thread that reads it.
#[derive(Drop)]
pub struct PipeDef {
    pub name: Name,
    pub places: u8,
    pub writer: ThreadId,
    pub reader: ThreadId,
}

/// A timer of a thread: the tick at which it is first due, none where it is off at the start, and its period, 0 for a one-shot.
#[derive(Drop)]
pub struct TimerDef {
    pub name: Name,
    pub thread: ThreadId,
    pub due: Option<u32>,
    pub period: u32,
}

/// A task of a thread: how many instructions it may execute, and its code.
#[derive(Drop)]
pub struct Task {
    pub name: Name,
    pub thread: ThreadId,
    pub limit: u16,
    pub code: Items<Instr>,
}

/// A task program. A source is given by the thread that it feeds.
#[derive(Drop)]
pub struct Program {
    pub threads: Items<ThreadDef>,
    pub sources: Items<ThreadId>,
    pub pipes: Items<PipeDef>,
    pub timers: Items<TimerDef>,
    pub tasks: Items<Task>,
}
