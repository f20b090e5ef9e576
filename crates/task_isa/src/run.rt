//! A task that is being evaluated.

ghost use Rattle.std.specs.Prelude.{◌≡◌, ◌+◌, ◌-◌, ◌^◌, ◌<◌, ◌∷◌, ◌++◌, [], List, ℕ, length, replicate, slice_index, slice_set, IfOk, None, Some};

use crate::reg::Reg;
use crate::sent::Sent;
use crate::task_start::TaskStart;
use crate::timer_set::TimerSet;
use ink_base::{NoMemory, PipeId, TimerId};
use sqlite_items::Items;
use std::alloc::Global;

/// A task that is being evaluated: the offset of its next instruction, its registers, how many items each pipe has room for, and the task's
/// effects so far.
#[derive(Drop)]
pub(crate) struct Run {
    pub at: u32,
    pub registers: [u32; 16],
    pub room: Items<u32>,
    pub state: Items<u32>,
    pub sends: Items<Sent>,
    pub outs: Items<u32>,
    pub timers: Items<TimerSet>,
}

impl Run {
    pub fn begin(alloc: Global, start: &TaskStart) -> Result<Run, NoMemory>
        ensures { IfOk result (λ r. r ≡ record {
          at = 0;
          registers = replicate 16 0;
          room = start.now.room;
          state = start.now.state;
          sends = [];
          outs = [];
          timers = [];
        }) }
    {
        Ok(Run {
            at: 0,
            registers: [0; 16],
            room: Items::from_slice(alloc, start.room.as_slice())?,
            state: Items::from_slice(alloc, start.state.as_slice())?,
            sends: Items::new(alloc),
            outs: Items::new(alloc),
            timers: Items::new(alloc),
        })
    }

    /// Goes on at the next instruction.
    pub fn advance(&mut self)
        requires { self.old.at < 2 ^ 32 - 1 }
        ensures { self.new ≡ record self.old { at = self.old.at + 1 } }
    {
        self.at += 1;
    }

    /// Sets a register and goes on at the next instruction.
    pub fn set(&mut self, register: Reg, value: u32)
        requires { self.old.at < 2 ^ 32 - 1 }
        ensures { self.new ≡ record self.old { at = self.old.at + 1; registers = slice_set self.old.registers register value } }
    {
        self.registers[register.number() as usize] = value;
        self.at += 1;
    }

    pub fn save(&mut self, index: u32, value: u32)
        requires there { index < length self.old.state }
        requires at { self.old.at < 2 ^ 32 - 1 }
        ensures { self.new ≡ record self.old { at = self.old.at + 1; state = slice_set self.old.state index value } }
    {
        self.state.set(index as usize, value);
        self.at += 1;
    }

    pub fn put(&mut self, value: u32) -> Result<(), NoMemory>
        requires { self.old.at < 2 ^ 32 - 1 }
        ensures { IfOk result (λ _. self.new ≡ record self.old { at = self.old.at + 1; outs = self.old.outs ++ value ∷ [] }) }
    {
        self.outs.push(value)?;
        self.at += 1;
        Ok(())
    }

    pub fn set_timer(&mut self, set: TimerSet) -> Result<(), NoMemory>
        requires { self.old.at < 2 ^ 32 - 1 }
        ensures { IfOk result (λ _. self.new ≡ record self.old { at = self.old.at + 1; timers = self.old.timers ++ set ∷ [] }) }
    {
        self.timers.push(set)?;
        self.at += 1;
        Ok(())
    }

    /// How many items a pipe has room for.
    pub fn free(&self, pipe: u32) -> u32
        ensures value { result ≡ slice_index self.now.room pipe }
        ensures within { 0 < result → pipe < length self.now.room }
    {
        self.room
            .as_slice()
            .get(pipe as usize)
            .copied()
            .unwrap_or(0)
    }

    /// Sends to a pipe that has room.
    pub fn send(&mut self, pipe: PipeId, register: Reg, value: u32) -> Result<(), NoMemory>
        requires at { self.old.at < 2 ^ 32 - 1 }
        requires there { pipe.0 < length self.old.room }
        requires free { 0 < slice_index self.old.room pipe.0 }
        ensures { IfOk result (λ _. self.new ≡ record self.old {
          at = self.old.at + 1;
          registers = slice_set self.old.registers register 1;
          room = slice_set self.old.room pipe.0 (slice_index self.old.room pipe.0 - 1);
          sends = self.old.sends ++ record { pipe = pipe; value = value } ∷ [];
        }) }
    {
        self.sends.push(Sent { pipe, value })?;
        let free = self.room.as_slice()[usize::from(pipe.0)];
        self.room.set(usize::from(pipe.0), free - 1);
        self.set(register, 1);
        Ok(())
    }
}
