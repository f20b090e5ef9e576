//! The plain meaning of one whole task, over lists.

ghost use Rattle.std.specs.Prelude.{◌≡◌, ◌-◌, ◌^◌, ◌<◌, List, length, IfOk, []};
ghost use Rattle.task_isa.specs.Lookup.{task_def};
ghost use Rattle.task_isa.specs.Meaning.{given_of, room_of, instr_at, task_end, task_of, RunEnd, Trapped, Ended};
ghost use Rattle.task_isa.specs.Acts.{act_of};
ghost use Rattle.task_isa.specs.Runnable.{IsRunnable};
ghost use Rattle.task_isa.specs.Runs.{KeepsRoom, Makes, config_of};

use crate::act::Act;
use crate::acting::act_for;
use crate::flow::Flow;
use crate::instr::Instr;
use crate::outcome::{Outcome, TrapCode};
use crate::program::Program;
use crate::run::Run;
use crate::task_end::TaskEnd;
use crate::task_start::TaskStart;
use ink_base::{NoMemory, TaskId};
use sqlite_items::Items;
use std::alloc::Global;

/// What the task leaves behind from a start. The task is one of the program's, its code can be run, and the scan's time is below 2^47 ticks.
pub fn eval_task(
    alloc: Global,
    program: &Program,
    task: TaskId,
    start: &TaskStart,
) -> Result<TaskEnd, NoMemory>
    requires there { task.0 < length program.now.tasks }
    requires runnable { IsRunnable (task_def program.now task.0).code }
    requires time { start.now.time < 2 ^ 47 }
    ensures { IfOk result (λ end. end ≡ task_of (task_def program.now task.0).code (task_def program.now task.0).limit start.now) }
{
    let task = &program.tasks.as_slice()[usize::from(task.0)];
    eval_code(alloc, task.code.as_slice(), task.limit, start)
}

/// What code leaves behind that may execute so many instructions.
fn eval_code(
    alloc: Global,
    code: &[Instr],
    limit: u16,
    start: &TaskStart,
) -> Result<TaskEnd, NoMemory>
    requires runnable { IsRunnable code.now }
    requires time { start.now.time < 2 ^ 47 }
    ensures { IfOk result (λ end. end ≡ task_of code.now limit start.now) }
{
    let mut run = Run::begin(alloc, start)?;
    let mut left = limit;
    while left > 0 {
        left -= 1;
        match run.step(code, start)? {
            Flow::GoesOn => {}
            Flow::IsOver(outcome) => return Ok(ended(run, outcome, limit - left)),
            Flow::HasTrapped(trap) => return trapped(alloc, trap, start, limit - left),
        }
    }
    trapped(alloc, TrapCode::Limit, start, limit)
}

/// What a run that is over leaves behind.
fn ended(run: Run, outcome: Outcome, executed: u16) -> TaskEnd
    ensures { result ≡ record {
      outcome = outcome;
      state = run.state;
      sends = run.sends;
      outs = run.outs;
      timers = run.timers;
      executed = executed;
    } }
{
    TaskEnd {
        outcome,
        state: run.state,
        sends: run.sends,
        outs: run.outs,
        timers: run.timers,
        executed: u32::from(executed),
    }
}

/// What a trap leaves behind.
fn trapped(
    alloc: Global,
    code: TrapCode,
    start: &TaskStart,
    executed: u16,
) -> Result<TaskEnd, NoMemory>
    ensures { IfOk result (λ end. end ≡ record {
      outcome = Outcome.Trap code;
      state = start.now.state;
      sends = [];
      outs = [];
      timers = [];
      executed = executed;
    }) }
{
    Ok(TaskEnd {
        outcome: Outcome::Trap(code),
        state: Items::from_slice(alloc, start.state.as_slice())?,
        sends: Items::new(alloc),
        outs: Items::new(alloc),
        timers: Items::new(alloc),
        executed: u32::from(executed),
    })
}

impl Run {
    /// Makes the step of the next instruction.
    fn step(&mut self, code: &[Instr], start: &TaskStart) -> Result<Flow, NoMemory>
        requires runnable { IsRunnable code.now }
        requires time { start.now.time < 2 ^ 47 }
        requires room { KeepsRoom start.now.room self.old }
        ensures { IfOk result (Makes (act_of (instr_at code.now self.old.at) (given_of start.now) (config_of self.old).cpu)
            (given_of start.now) (room_of start.now) self.old self.new) }
    {
        if self.at as usize >= code.len() {
            return Ok(Flow::IsOver(Outcome::Done));
        }
        let act = self.act(fetch(code, self.at), start);
        self.apply(act, start)
    }

    /// What an instruction does at this point of the run.
    fn act(&self, instr: Instr, start: &TaskStart) -> Act
        requires { self.now.at < 2 ^ 32 - 1 }
        ensures { result ≡ act_of instr (given_of start.now) (config_of self.now).cpu }
    {
        act_for(instr, &start.event, start.time, self.at, &self.registers)
    }
}

/// The instruction at an offset, `done` behind the code.
fn fetch(code: &[Instr], at: u32) -> Instr
    ensures { result ≡ instr_at code.now at }
{
    code.get(at as usize).copied().unwrap_or(Instr::Done)
}
