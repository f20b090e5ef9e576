//! The next access of a task.

ghost use Rattle.std.specs.Prelude.{◌≡◌, ◌+◌, ◌*◌, ◌%◌, ◌^◌, ◌<◌, ◌≤◌, length};
ghost use Rattle.fram_words.specs.Places as places;
ghost use Rattle.prog_check.specs.Accepted.{IsAccepted};
ghost use Rattle.prog_check.specs.Lookup.{thread_def};
ghost use Rattle.fram_words.specs.Steps.{access_of};
ghost use Rattle.fram_words.specs.Header.{word_of, IsHeader};
ghost use Rattle.fram_words.specs.Held as held;
ghost use Rattle.ink_layout.specs.Shape.{IsOnBoard, block_words};
ghost use Rattle.thread_state.specs.Pages as pages;
ghost use Rattle.task_run.specs.Machine as machine;
ghost use Rattle.task_run.specs.Actions as actions;
ghost use Rattle.task_run.specs.declared.phase.Phase.TheVariants as phases;
ghost use Rattle.task_run.specs.Fits.{FitsChain, FitsExecution, FitsTask};

use crate::machine::TaskMachine;
use crate::parts::{is_overdue, number_of};
use crate::phase::Phase;
use crate::pipe_at::{item_of, reader_of, taken_of};
use fram_words::{Header, Place, Step, due_word, next_word, origin_word, output_word};
use ink_base::Output;
use ink_layout::slot_of;
use persist_timer::armed;
use push_core::empty;
use task_isa::Program;

impl TaskMachine {
    /// The access of the phase, to its place.
    #[inline(always)]
    pub(crate) fn wants(&self, program: &Program) -> Step
        requires accepted { IsAccepted program.now }
        requires fits { FitsTask program.now self.now }
        ensures step { access_of result ≡ machine.want program.now self.now }
        ensures there { IsOnBoard program.now (places.place_of (access_of result)) }
    {
        match self.phase {
            Phase::WriteFirst => self.put_header(program, Header::First, self.pick.time),
            Phase::WriteOrigin => self.put_header(
                program,
                Header::Origin,
                origin_word(self.pick.event.origin),
            ),
            Phase::WriteValue => self.put_header(
                program,
                Header::Value,
                self.pick.event.value as u64,
            ),
            Phase::WriteTaken => self.put_header(
                program,
                Header::Taken(self.device()),
                self.pick.taken + 1,
            ),
            Phase::ReadPeriod => self.get_header(program, Header::Period(self.device())),
            Phase::WriteDue { word } => self.put_header(program, Header::Due(self.device()), word),
            Phase::Resume => self.resume(program),
            Phase::Fetch => self.fetch(program),
            Phase::ReadState { index, .. } => self.get(program, Header::WORDS + index),
            Phase::WriteState { index, value } => self.put(
                program,
                Header::WORDS + index,
                value as u64,
            ),
            Phase::ReadCount { .. } => self.get_header(program, Header::Outputs),
            Phase::StoreLog { index, value } => self.output(program, index, value),
            Phase::WriteCount { count } => self.put_header(program, Header::Outputs, count as u64),
            Phase::LoadReader { sending } => Step::Load(reader_of(program, sending.pipe)),
            Phase::LoadTaken {
                sending,
                commit_word,
            } => Step::Load(taken_of(program, sending.pipe, commit_word)),
            Phase::ReadWritten { sending, .. } => self.get_header(
                program,
                Header::Written(sending.pipe),
            ),
            Phase::StoreItem { sending, written } => Step::Store(
                item_of(program, sending.pipe, written),
                sending.value as u64,
            ),
            Phase::WriteWritten { sending, written } => self.put_header(
                program,
                Header::Written(sending.pipe),
                written + 1,
            ),
            Phase::WriteArmed { timer, delay, .. } => self.put_header(
                program,
                Header::Due(timer),
                armed(self.pick.time, delay),
            ),
            Phase::WritePeriod { timer, period } => self.put_header(
                program,
                Header::Period(timer),
                period as u64,
            ),
            Phase::WriteStopped { timer } => self.put_header(
                program,
                Header::Due(timer),
                due_word(None),
            ),
            Phase::WriteNext => self.put_header(program, Header::Next, self.ending.next_word()),
            Phase::WriteFinished => self.put_header(
                program,
                Header::Finished,
                self.pick.position as u64 + 1,
            ),
            Phase::ReadTotal => self.get(program, self.ending.total_word()),
            Phase::WriteTotal { total } => self.put(program, self.ending.total_word(), total),
            Phase::WriteStamp => self.put_header(program, Header::Stamp, self.stamp + 1),
            Phase::StoreCommit => self.commit(program),
            Phase::StoreAck { source, count } => {
                Step::Store(Place::Ack { source }, (count as u64 + 1) % 64)
            }
            Phase::StoreEmpty => self.emptying(program),
            Phase::Over => Step::Load(Place::Clock),
        }
    }

    // The next access of a write to a word of the thread's block.
    fn put(&self, program: &Program, word: u32, value: u64) -> Step
        requires accepted { IsAccepted program.now }
        requires known { self.now.pick.thread.0 < length program.now.threads }
        requires within { word < block_words (thread_def program.now self.now.pick.thread.0) }
        ensures step { access_of result ≡ pages.put_access self.now.pick.thread.0 self.now.buffer word value }
        ensures there { IsOnBoard program.now (places.place_of (access_of result)) }
    {
        self.buffer.put(self.pick.thread, word, value)
    }

    // The access that reads a word of the thread's block.
    fn get(&self, program: &Program, word: u32) -> Step
        requires accepted { IsAccepted program.now }
        requires known { self.now.pick.thread.0 < length program.now.threads }
        requires within { word < block_words (thread_def program.now self.now.pick.thread.0) }
        ensures step { access_of result ≡ pages.get_access self.now.pick.thread.0 self.now.buffer word }
        ensures there { IsOnBoard program.now (places.place_of (access_of result)) }
    {
        self.buffer.get(self.pick.thread, word)
    }

    // The next access of a write to a word of the thread's header.
    #[inline(always)]
    fn put_header(&self, program: &Program, header: Header, value: u64) -> Step
        requires accepted { IsAccepted program.now }
        requires known { self.now.pick.thread.0 < length program.now.threads }
        requires header { IsHeader header }
        ensures step { access_of result ≡ pages.put_access self.now.pick.thread.0 self.now.buffer (word_of header) value }
        ensures there { IsOnBoard program.now (places.place_of (access_of result)) }
    {
        self.put(program, header.word(), value)
    }

    // The access that reads a word of the thread's header.
    #[inline(always)]
    fn get_header(&self, program: &Program, header: Header) -> Step
        requires accepted { IsAccepted program.now }
        requires known { self.now.pick.thread.0 < length program.now.threads }
        requires header { IsHeader header }
        ensures step { access_of result ≡ pages.get_access self.now.pick.thread.0 self.now.buffer (word_of header) }
        ensures there { IsOnBoard program.now (places.place_of (access_of result)) }
    {
        self.get(program, header.word())
    }

    // The first access of a running chain: a write where it has expired, else the load of its task's first code word.
    fn resume(&self, program: &Program) -> Step
        requires accepted { IsAccepted program.now }
        requires known { self.now.pick.thread.0 < length program.now.threads }
        requires fits { FitsExecution program.now self.now.execution }
        requires chain { FitsChain (thread_def program.now self.now.pick.thread.0).expires self.now.pick.running self.now.pick.first self.now.pick.time }
        ensures step { access_of result ≡ actions.access_of self.now (actions.action program.now self.now phases.Resume) }
        ensures there { IsOnBoard program.now (places.place_of (access_of result)) }
    {
        if self.is_late(program) {
            self.put_header(program, Header::Next, next_word(None))
        } else {
            self.fetch(program)
        }
    }

    // The number of the pipe or timer that the event is of.
    pub(crate) fn device(&self) -> u32
        ensures { result ≡ actions.device self.now }
    {
        number_of(self.pick.event.origin)
    }

    // A running chain has run for more ticks than its thread allows.
    pub(crate) fn is_late(&self, program: &Program) -> bool
        requires known { self.now.pick.thread.0 < length program.now.threads }
        requires chain { FitsChain (thread_def program.now self.now.pick.thread.0).expires self.now.pick.running self.now.pick.first self.now.pick.time }
        ensures { result ≡ actions.is_late program.now self.now }
    {
        is_overdue(
            program.threads.as_slice()[self.pick.thread.0 as usize].expires,
            self.pick.running,
            self.pick.first,
            self.pick.time,
        )
    }

    // The load of the next instruction's code word.
    fn fetch(&self, program: &Program) -> Step
        requires fits { FitsExecution program.now self.now.execution }
        ensures step { access_of result ≡ places.Load (places.Code self.now.execution.task.0 self.now.execution.at) }
        ensures there { IsOnBoard program.now (places.place_of (access_of result)) }
    {
        Step::Load(Place::Code {
            task: self.execution.task,
            offset: self.execution.at,
        })
    }

    // The store of an output of this commit.
    fn output(&self, program: &Program, index: u32, value: u32) -> Step
        requires known { self.now.pick.thread.0 < length program.now.threads }
        requires within { index < (thread_def program.now self.now.pick.thread.0).log }
        requires stamp { self.now.stamp + 1 < 2 ^ 32 }
        ensures step { access_of result ≡ places.Store (places.Log self.now.pick.thread.0 index) (held.output_word (actions.output_of self.now value)) }
        ensures there { IsOnBoard program.now (places.place_of (access_of result)) }
    {
        let thread = self.pick.thread;
        let output = Output {
            stamp: self.stamp + 1,
            thread,
            value,
        };
        Step::Store(Place::Log { thread, index }, output_word(output))
    }

    // The store that makes all writes current.
    fn commit(&self, program: &Program) -> Step
        requires known { self.now.pick.thread.0 < length program.now.threads }
        ensures step { access_of result ≡ pages.commit_access self.now.pick.thread.0 self.now.buffer }
        ensures there { IsOnBoard program.now (places.place_of (access_of result)) }
    {
        self.buffer.commit(self.pick.thread)
    }

    // The store that empties the slot of the event.
    fn emptying(&self, program: &Program) -> Step
        requires accepted { IsAccepted program.now }
        requires fits { FitsTask program.now self.now }
        ensures step { access_of result ≡ actions.emptying program.now self.now }
        ensures there { IsOnBoard program.now (places.place_of (access_of result)) }
    {
        let thread = self.pick.thread;
        let places = program.threads.as_slice()[thread.0 as usize].queue as u32;
        Step::Store(
            slot_of(program, thread, self.pick.position),
            empty(self.pick.position + places),
        )
    }
}
