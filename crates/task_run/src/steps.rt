//! The registers of a task after an access.

ghost use Rattle.std.specs.Prelude.{◌≡◌, ◌+◌, ◌<◌, ◌≤◌, ◌^◌, nat_lt, if◌then◌else◌, length};
ghost use Rattle.prog_check.specs.Accepted.{IsAccepted};
ghost use Rattle.prog_check.specs.Lookup as lookup;
ghost use Rattle.task_run.specs.declared.phase.Phase.TheVariants as phases;
ghost use Rattle.task_run.specs.Machine as machine;
ghost use Rattle.task_run.specs.Actions as actions;
ghost use Rattle.task_run.specs.Fits.{FitsChain, FitsExecution, FitsSending, FitsTask, FitsWord};

use crate::ending::Ending;
use crate::execution::Execution;
use crate::following::{after_commit, after_next, end_phase};
use crate::machine::TaskMachine;
use crate::parts::{first_task, instr_of, low};
use crate::phase::Phase;
use crate::pipe_at::places_of;
use crate::sending::Sending;
use event_pipe::has_room;
use ink_base::Origin;
use persist_timer::after_service;
use task_isa::Program;

impl TaskMachine {
    /// Goes on after the access, which found this word.
    pub(crate) fn go_on(&mut self, program: &Program, word: u64)
        requires accepted { IsAccepted program.now }
        requires fits { FitsTask program.now self.old }
        requires word { FitsWord program.now self.old.phase word }
        ensures { self.new ≡ machine.take program.now self.old word }
    {
        match self.page_copied(program) {
            Some(page) => {
                self.buffer.copied(page, word);
            }
            None => self.follow(program, word),
        }
    }

    // What the phase does is done.
    #[inline(always)]
    fn follow(&mut self, program: &Program, word: u64)
        requires accepted { IsAccepted program.now }
        requires fits { FitsTask program.now self.old }
        requires word { FitsWord program.now self.old.phase word }
        ensures { self.new ≡ machine.after program.now self.old self.old.phase word }
    {
        let phase = self.phase;
        match phase {
            Phase::WriteFirst => self.phase = Phase::WriteOrigin,
            Phase::WriteOrigin => self.phase = Phase::WriteValue,
            Phase::WriteValue => self.consume(program),
            Phase::WriteTaken | Phase::WriteDue { .. } => self.begin_task(program),
            Phase::ReadPeriod => {
                self.phase = Phase::WriteDue {
                    word: after_service(self.pick.due_word, word),
                }
            }
            Phase::Resume => self.resumed(program, word),
            Phase::Fetch => self.execute(program, instr_of(word)),
            Phase::ReadState { register, .. } => self.set(program, register, low(word)),
            Phase::WriteState { .. }
            | Phase::WriteCount { .. }
            | Phase::WritePeriod { .. }
            | Phase::WriteStopped { .. } => self.proceed(program),
            Phase::ReadCount { value } => self.put_out(program, word, value),
            Phase::StoreLog { index, .. } => self.phase = Phase::WriteCount { count: index + 1 },
            Phase::LoadReader { sending } => {
                self.phase = Phase::LoadTaken {
                    sending,
                    commit_word: word,
                }
            }
            Phase::LoadTaken { sending, .. } => {
                self.phase = Phase::ReadWritten {
                    sending,
                    taken: word,
                }
            }
            Phase::ReadWritten { sending, taken } => self.send(program, sending, taken, word),
            Phase::StoreItem { sending, written } => {
                self.phase = Phase::WriteWritten { sending, written }
            }
            Phase::WriteWritten { sending, .. } => self.set(program, sending.register, 1),
            Phase::WriteArmed { timer, period, .. } => {
                self.phase = Phase::WritePeriod { timer, period }
            }
            Phase::WriteNext => self.phase = after_next(self.ending, self.pick.event.origin),
            Phase::WriteFinished => self.phase = Phase::ReadTotal,
            Phase::ReadTotal => self.phase = Phase::WriteTotal { total: word + 1 },
            Phase::WriteTotal { .. } => self.phase = Phase::WriteStamp,
            Phase::WriteStamp => self.phase = Phase::StoreCommit,
            Phase::StoreCommit => self.phase = after_commit(self.ending, self.pick.event.origin),
            Phase::StoreAck { .. } => self.phase = Phase::StoreEmpty,
            Phase::StoreEmpty => self.phase = Phase::Over,
            Phase::Over => {}
        }
    }

    // The event's origin and value are written: an item is taken from its pipe, and a timer goes on.
    fn consume(&mut self, program: &Program)
        requires accepted { IsAccepted program.now }
        ensures { self.new ≡ machine.after_value program.now self.old self.old.pick.event.origin }
    {
        match self.pick.event.origin {
            Origin::Source { .. } => self.begin_task(program),
            Origin::Pipe { .. } => self.phase = Phase::WriteTaken,
            Origin::Timer { .. } => self.phase = Phase::ReadPeriod,
        }
    }

    // A running chain goes on with its task, unless it has expired.
    fn resumed(&mut self, program: &Program, word: u64)
        requires accepted { IsAccepted program.now }
        requires known { self.old.pick.thread.0 < length program.now.threads }
        requires time { self.old.pick.time < 2 ^ 47 }
        requires fits { FitsExecution program.now self.old.execution }
        requires chain { FitsChain (lookup.thread_def program.now self.old.pick.thread.0).expires self.old.pick.running self.old.pick.first self.old.pick.time }
        ensures { self.new ≡ machine.after_resume program.now self.old (actions.is_late program.now self.old) word }
    {
        if self.is_late(program) {
            self.ending = Ending::Expired;
            self.phase = end_phase(self.pick.event.origin);
        } else {
            self.execute(program, instr_of(word));
        }
    }

    // The item is sent where its pipe has room, by the numbers of items that were taken and written; else the register says that there
    // was none.
    fn send(&mut self, program: &Program, sending: Sending, taken: u64, written: u64)
        requires accepted { IsAccepted program.now }
        requires fits { FitsSending program.now self.old.execution sending }
        requires ordered { taken ≤ written }
        requires within { written ≤ taken + (lookup.pipe_def program.now sending.pipe).places }
        ensures { self.new ≡ machine.after_written program.now self.old sending taken written }
    {
        if has_room(places_of(program, sending.pipe), written, taken) {
            self.phase = Phase::StoreItem { sending, written };
        } else {
            self.set(program, sending.register, 0);
        }
    }

    // The thread's first task begins, unless it has trapped.
    fn begin_task(&mut self, program: &Program)
        requires accepted { IsAccepted program.now }
        ensures { self.new ≡ machine.after_event program.now self.old self.old.ending }
    {
        match self.ending {
            Ending::Done => {
                self.execution = Execution::begin(first_task(program, self.pick.thread));
                self.phase = Phase::Fetch;
            }
            _ => self.phase = Phase::WriteNext,
        }
    }

    // An output, after this many.
    fn put_out(&mut self, program: &Program, outputs: u64, value: u32)
        requires known { self.old.pick.thread.0 < length program.now.threads }
        ensures { self.new ≡ (if nat_lt outputs (lookup.thread_def program.now self.old.pick.thread.0).log
            then machine.at_phase self.old (phases.StoreLog outputs value)
            else machine.trap self.old) }
    {
        if outputs < program.threads.as_slice()[self.pick.thread.0 as usize].log as u64 {
            self.phase = Phase::StoreLog {
                index: outputs as u32,
                value,
            };
        } else {
            self.trap();
        }
    }
}
