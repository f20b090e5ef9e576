//! How a run makes the step of each act.

ghost use Rattle.std.specs.Prelude.{◌≡◌, ◌+◌, ◌-◌, ◌^◌, ◌<◌, IfOk};
ghost use Rattle.task_isa.specs.Meaning.{given_of, room_of};
ghost use Rattle.task_isa.specs.Runnable.{NamesFittingId};
ghost use Rattle.task_isa.specs.Runs.{KeepsRoom, Makes};

use crate::act::Act;
use crate::flow::Flow;
use crate::outcome::{Outcome, TrapCode};
use crate::reg::Reg;
use crate::run::Run;
use crate::task_start::TaskStart;
use crate::timer_set::TimerSet;
use ink_base::{NoMemory, PipeId, TaskId, TimerId};

impl Run {
    /// Makes the step of an act.
    pub fn apply(&mut self, act: Act, start: &TaskStart) -> Result<Flow, NoMemory>
        requires at { self.old.at < 2 ^ 32 - 1 }
        requires ids { NamesFittingId act }
        requires time { start.now.time < 2 ^ 47 }
        requires room { KeepsRoom start.now.room self.old }
        ensures { IfOk result (Makes act (given_of start.now) (room_of start.now) self.old self.new) }
    {
        match act {
            Act::Sets { register, value } => Ok(self.apply_set(register, value, start)),
            Act::Goes { offset } => Ok(self.apply_jump(offset, start)),
            Act::Loads { register, index } => Ok(self.apply_load(register, index, start)),
            Act::Saves { index, value } => Ok(self.apply_save(index, value, start)),
            Act::Puts { value } => self.apply_put(value, start),
            Act::Sends {
                pipe,
                register,
                value,
            } => self.apply_send(pipe, register, value, start),
            Act::Arms {
                timer,
                delay,
                period,
            } => self.apply_arm(timer, delay, period, start),
            Act::Stops { timer } => self.apply_stop(timer, start),
            Act::Continues { task } => Ok(Flow::IsOver(Outcome::Next(TaskId(task as u16)))),
            Act::Ends => Ok(Flow::IsOver(Outcome::Done)),
            Act::Traps { code } => Ok(Flow::HasTrapped(code)),
        }
    }

    fn apply_set(&mut self, register: Reg, value: u32, start: &TaskStart) -> Flow
        requires at { self.old.at < 2 ^ 32 - 1 }
        requires room { KeepsRoom start.now.room self.old }
        ensures { Makes (Act.Sets register value) (given_of start.now) (room_of start.now) self.old self.new result }
    {
        let _ = start;
        self.set(register, value);
        Flow::GoesOn
    }

    fn apply_jump(&mut self, offset: u32, start: &TaskStart) -> Flow
        requires room { KeepsRoom start.now.room self.old }
        ensures { Makes (Act.Goes offset) (given_of start.now) (room_of start.now) self.old self.new result }
    {
        let _ = start;
        self.at = offset;
        Flow::GoesOn
    }

    fn apply_load(&mut self, register: Reg, index: u32, start: &TaskStart) -> Flow
        requires at { self.old.at < 2 ^ 32 - 1 }
        requires room { KeepsRoom start.now.room self.old }
        ensures { Makes (Act.Loads register index) (given_of start.now) (room_of start.now) self.old self.new result }
    {
        let _ = start;
        match self.state.get(index as usize).copied() {
            Some(value) => {
                self.set(register, value);
                Flow::GoesOn
            }
            None => Flow::HasTrapped(TrapCode::Index),
        }
    }

    fn apply_save(&mut self, index: u32, value: u32, start: &TaskStart) -> Flow
        requires at { self.old.at < 2 ^ 32 - 1 }
        requires room { KeepsRoom start.now.room self.old }
        ensures { Makes (Act.Saves index value) (given_of start.now) (room_of start.now) self.old self.new result }
    {
        let _ = start;
        if (index as usize) < self.state.len() {
            self.save(index, value);
            Flow::GoesOn
        } else {
            Flow::HasTrapped(TrapCode::Index)
        }
    }

    fn apply_put(&mut self, value: u32, start: &TaskStart) -> Result<Flow, NoMemory>
        requires at { self.old.at < 2 ^ 32 - 1 }
        requires room { KeepsRoom start.now.room self.old }
        ensures { IfOk result (Makes (Act.Puts value) (given_of start.now) (room_of start.now) self.old self.new) }
    {
        if self.outs.len() < start.log_room as usize {
            self.put(value)?;
            Ok(Flow::GoesOn)
        } else {
            Ok(Flow::HasTrapped(TrapCode::LogFull))
        }
    }

    fn apply_send(
        &mut self,
        pipe: u32,
        register: Reg,
        value: u32,
        start: &TaskStart,
    ) -> Result<Flow, NoMemory>
        requires at { self.old.at < 2 ^ 32 - 1 }
        requires id { pipe < 256 }
        requires room { KeepsRoom start.now.room self.old }
        ensures { IfOk result (Makes (Act.Sends pipe register value) (given_of start.now) (room_of start.now) self.old self.new) }
    {
        let _ = start;
        if self.free(pipe) > 0 {
            self.send(PipeId(pipe as u8), register, value)?;
        } else {
            self.set(register, 0);
        }
        Ok(Flow::GoesOn)
    }

    fn apply_arm(
        &mut self,
        timer: u32,
        delay: u32,
        period: u32,
        start: &TaskStart,
    ) -> Result<Flow, NoMemory>
        requires at { self.old.at < 2 ^ 32 - 1 }
        requires id { timer < 256 }
        requires time { start.now.time < 2 ^ 47 }
        requires room { KeepsRoom start.now.room self.old }
        ensures { IfOk result (Makes (Act.Arms timer delay period) (given_of start.now) (room_of start.now) self.old self.new) }
    {
        self.set_timer(TimerSet {
            timer: TimerId(timer as u8),
            due: Some(start.time + u64::from(delay)),
            period,
        })?;
        Ok(Flow::GoesOn)
    }

    fn apply_stop(&mut self, timer: u32, start: &TaskStart) -> Result<Flow, NoMemory>
        requires at { self.old.at < 2 ^ 32 - 1 }
        requires id { timer < 256 }
        requires room { KeepsRoom start.now.room self.old }
        ensures { IfOk result (Makes (Act.Stops timer) (given_of start.now) (room_of start.now) self.old self.new) }
    {
        let _ = start;
        self.set_timer(TimerSet {
            timer: TimerId(timer as u8),
            due: None,
            period: 0,
        })?;
        Ok(Flow::GoesOn)
    }
}
