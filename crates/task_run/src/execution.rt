//! How far the run of a task is.

ghost use Rattle.std.specs.Prelude.{◌≡◌};
ghost use Rattle.task_run.specs.Actions.{execution_of};

use ink_base::TaskId;

/// How far the run of a task is: the task, the offset of its next instruction, the sixteen registers, and the number of executed
/// instructions.
#[derive(Clone, Copy)]
pub struct Execution {
    pub task: TaskId,
    pub at: u32,
    pub registers: [u32; 16],
    pub executed: u32,
}

impl Execution {
    /// The start of a task.
    pub fn begin(task: TaskId) -> Execution
        ensures { result ≡ execution_of task }
    {
        Execution {
            task,
            at: 0,
            registers: [0; 16],
            executed: 0,
        }
    }
}
