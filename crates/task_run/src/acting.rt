//! What an instruction does to the registers of a task.

ghost use Rattle.std.specs.Prelude.{◌≡◌, ◌+◌, ◌<◌, ◌^◌, nat_lt, length};
ghost use Rattle.task_isa.specs.declared.act.Act.TheVariants as acts;
ghost use Rattle.task_isa.specs.Meaning as meaning;
ghost use Rattle.prog_check.specs.Accepted.{IsAccepted};
ghost use Rattle.prog_check.specs.Lookup as lookup;
ghost use Rattle.task_run.specs.declared.phase.Phase.TheVariants as phases;
ghost use Rattle.task_run.specs.Machine as machine;
ghost use Rattle.task_run.specs.Actions as actions;
ghost use Rattle.task_run.specs.Fits.{FitsExecution};

use crate::ending::Ending;
use crate::following::phase_again;
use crate::machine::TaskMachine;
use crate::parts::state_of;
use crate::phase::Phase;
use crate::sending::Sending;
use ink_base::limits::TASK_LIMIT;
use task_isa::{Act, Instr, Program, Reg, act_for};

impl TaskMachine {
    // The instruction that was fetched.
    #[inline(always)]
    pub(crate) fn execute(&mut self, program: &Program, instr: Instr)
        requires accepted { IsAccepted program.now }
        requires known { self.old.pick.thread.0 < length program.now.threads }
        requires fits { FitsExecution program.now self.old.execution }
        ensures { self.new ≡ machine.after_fetch program.now self.old instr }
    {
        let at = self.execution.at;
        match act_for(
            instr,
            &self.pick.event,
            self.pick.time,
            at,
            &self.execution.registers,
        ) {
            Act::Sets { register, value } => self.set(program, register, value),
            Act::Goes { offset } => self.go(program, offset),
            Act::Loads { register, index } => self.load(program, register, index),
            Act::Saves { index, value } => self.save(program, index, value),
            Act::Puts { value } => self.phase = Phase::ReadCount { value },
            Act::Sends {
                pipe,
                register,
                value,
            } => self.begin_sending(pipe, register, value),
            Act::Arms {
                timer,
                delay,
                period,
            } => self.arm(timer, delay, period),
            Act::Stops { timer } => self.phase = Phase::WriteStopped { timer },
            Act::Continues { task } => {
                self.ending = Ending::Next { task };
                self.phase = Phase::WriteNext;
            }
            Act::Ends => self.phase = Phase::WriteNext,
            Act::Traps { .. } => self.trap(),
        }
    }

    // A value is sent, and a register tells whether its pipe had room.
    fn begin_sending(&mut self, pipe: u32, register: Reg, value: u32)
        ensures { self.new ≡ machine.at_phase self.old (phases.LoadReader (record { pipe = pipe; register = register; value = value })) }
    {
        let sending = Sending {
            pipe,
            register,
            value,
        };
        self.phase = Phase::LoadReader { sending };
    }

    // A timer is set, to be due so many ticks after the scan's time.
    fn arm(&mut self, timer: u32, delay: u32, period: u32)
        ensures { self.new ≡ machine.at_phase self.old (phases.WriteArmed timer delay period) }
    {
        self.phase = Phase::WriteArmed {
            timer,
            delay,
            period,
        };
    }

    // A state number is read into a register.
    fn load(&mut self, program: &Program, register: Reg, index: u32)
        requires known { self.old.pick.thread.0 < length program.now.threads }
        ensures { self.new ≡ machine.after_act program.now self.old (acts.Loads register index) }
    {
        if index < state_of(program, self.pick.thread) {
            self.phase = Phase::ReadState { register, index };
        } else {
            self.trap();
        }
    }

    // A state number is written.
    fn save(&mut self, program: &Program, index: u32, value: u32)
        requires known { self.old.pick.thread.0 < length program.now.threads }
        ensures { self.new ≡ machine.after_act program.now self.old (acts.Saves index value) }
    {
        if index < state_of(program, self.pick.thread) {
            self.phase = Phase::WriteState { index, value };
        } else {
            self.trap();
        }
    }

    // All writes are given up, and the event's are made again.
    pub(crate) fn trap(&mut self)
        ensures { self.new ≡ machine.trap self.old }
    {
        self.buffer.discard();
        self.ending = Ending::Trapped;
        self.phase = phase_again(self.pick.running);
    }

    // A register is set, and the next instruction follows.
    pub(crate) fn set(&mut self, program: &Program, register: Reg, value: u32)
        requires fits { FitsExecution program.now self.old.execution }
        ensures { self.new ≡ machine.proceed program.now self.old (meaning.advance_with (actions.cpu_of self.old.execution) register value) }
    {
        if self.has_next(program) {
            self.execution.registers[register.number() as usize] = value;
            self.execution.at += 1;
            self.step();
        } else {
            self.trap();
        }
    }

    // The next instruction follows.
    pub(crate) fn proceed(&mut self, program: &Program)
        requires fits { FitsExecution program.now self.old.execution }
        ensures { self.new ≡ machine.proceed program.now self.old (meaning.advance (actions.cpu_of self.old.execution)) }
    {
        if self.has_next(program) {
            self.execution.at += 1;
            self.step();
        } else {
            self.trap();
        }
    }

    // The instruction at this offset follows.
    fn go(&mut self, program: &Program, offset: u32)
        requires fits { FitsExecution program.now self.old.execution }
        ensures { self.new ≡ machine.proceed program.now self.old (record (actions.cpu_of self.old.execution) { at = offset }) }
    {
        if self.has_next(program) {
            self.execution.at = offset;
            self.step();
        } else {
            self.trap();
        }
    }

    // One more instruction may be executed.
    fn has_next(&self, program: &Program) -> bool
        requires fits { FitsExecution program.now self.now.execution }
        ensures { result ≡ nat_lt (self.now.execution.executed + 1) (lookup.task_def program.now self.now.execution.task.0).limit }
    {
        self.execution.executed + 1
            < program.tasks.as_slice()[self.execution.task.0 as usize].limit as u32
    }

    // An instruction was executed.
    fn step(&mut self)
        requires { self.old.execution.executed < TASK_LIMIT }
        ensures { self.new ≡ record self.old { execution = record self.old.execution { executed = self.old.execution.executed + 1 }; phase = phases.Fetch } }
    {
        self.execution.executed += 1;
        self.phase = Phase::Fetch;
    }
}
