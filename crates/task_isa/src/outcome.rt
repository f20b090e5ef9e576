//! How a task ends.

use ink_base::TaskId;

/// Why a task traps.
#[derive(Clone, Copy)]
pub enum TrapCode {
    /// A division by zero.
    Divisor,
    /// A state number that the thread doesn't have.
    Index,
    /// An output to a full log.
    LogFull,
    /// As many instructions as the task's limit were executed without an end.
    Limit,
}

/// How a task ends.
#[derive(Clone, Copy)]
pub enum Outcome {
    /// The chain goes on with this task.
    Next(TaskId),
    /// The service is over.
    Done,
    /// The task's effects are thrown away, and the service is over.
    Trap(TrapCode),
}
