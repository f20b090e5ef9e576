//! Programs and their instructions: what a task program declares, and what one task does.
#![tactic(auto)]

mod act;
mod acting;
mod applying;
mod code;
mod evaluation;
mod flow;
mod instr;
mod lines;
mod name;
mod outcome;
mod program;
mod reg;
mod run;
mod sent;
mod task_end;
mod task_start;
mod timer_set;

pub use act::Act;
pub use acting::act_for;
pub use code::{decode, encode};
pub use evaluation::eval_task;
pub use instr::Instr;
pub use lines::Lines;
pub use name::Name;
pub use outcome::{Outcome, TrapCode};
pub use program::{PipeDef, Program, Task, ThreadDef, TimerDef};
pub use reg::Reg;
pub use sent::Sent;
pub use task_end::TaskEnd;
pub use task_start::TaskStart;
pub use timer_set::TimerSet;
