//! What a commit makes of a state.

ghost use Rattle.std.specs.Prelude.{◌≡◌, ◌<◌, ◌^◌, ℕ, length, false, IfOk};
ghost use Rattle.prog_check.specs.Accepted.{IsAccepted};
ghost use Rattle.never_cut.specs.State.{is_running, pipe_of, thread_of};
ghost use Rattle.never_cut.specs.Commit.{commit, committed, consumed, end_at, ended, expired, is_expired, is_overdue};
ghost use Rattle.never_cut.specs.Within.{HasRoom, IsTimely};
ghost use Rattle.never_cut.specs.Replaying.{model_of};

use crate::kept_outputs::put_all;
use crate::parts::{end_thread, expire, move_on, put_sends, set_timers, take_item};
use crate::replaying::Replaying;
use ink_base::{Event, NoMemory, Origin, ThreadId};
use std::alloc::Global;
use task_isa::{Program, TaskEnd};

impl Replaying {
    /// Commits a thread with its pending event. Without a scan or a pending event nothing changes.
    pub(crate) fn commit(
        &mut self,
        alloc: Global,
        program: &Program,
        thread: ThreadId,
    ) -> Result<(), NoMemory>
        requires accepted { IsAccepted program.now }
        requires room { HasRoom program.now (model_of self.old) }
        requires thread { thread.0 < length program.now.threads }
        ensures { IfOk result (λ _. model_of self.new ≡ commit program.now thread.0 (model_of self.old)) }
    {
        let time = match &self.scan {
            None => return Ok(()),
            Some(scan) => scan.time,
        };
        match self.pending(program, usize::from(thread.0)) {
            None => Ok(()),
            Some(event) => self.serve(alloc, program, thread, event, time),
        }
    }

    /// Commits a thread with an event, at a scan's time.
    fn serve(
        &mut self,
        alloc: Global,
        program: &Program,
        thread: ThreadId,
        event: Event,
        time: u64,
    ) -> Result<(), NoMemory>
        requires accepted { IsAccepted program.now }
        requires room { HasRoom program.now (model_of self.old) }
        requires thread { thread.0 < length program.now.threads }
        requires time { time < 2 ^ 47 }
        requires timely { is_running (thread_of (model_of self.old) thread.0) ≡ false → IsTimely event }
        ensures { IfOk result (λ _. model_of self.new ≡ committed program.now thread.0 event time (model_of self.old)) }
    {
        if self.is_expired(program, usize::from(thread.0), time) {
            self.expire(thread, event);
        } else {
            self.run_task(alloc, program, thread, event, time)?;
        }
        self.commits += 1;
        self.scan = None;
        Ok(())
    }

    fn is_expired(&self, program: &Program, t: usize, time: u64) -> bool
        requires room { HasRoom program.now (model_of self.now) }
        requires thread { t < length program.now.threads }
        ensures { result ≡ is_expired program.now (model_of self.now) t time }
    {
        let thread = self.thread(t);
        thread.running.is_some()
            && is_overdue(program.threads.as_slice()[t].expires, thread.first, time)
    }

    fn expire(&mut self, thread: ThreadId, event: Event)
        requires there { thread.0 < length self.old.threads.items }
        requires few { (thread_of (model_of self.old) thread.0).expired < 2 ^ 32 }
        ensures { model_of self.new ≡ expired thread.0 event (model_of self.old) }
    {
        expire(&mut self.threads[usize::from(thread.0)], event);
    }

    /// Runs the task that serves an event, with all its effects.
    fn run_task(
        &mut self,
        alloc: Global,
        program: &Program,
        thread: ThreadId,
        event: Event,
        time: u64,
    ) -> Result<(), NoMemory>
        requires accepted { IsAccepted program.now }
        requires room { HasRoom program.now (model_of self.old) }
        requires thread { thread.0 < length program.now.threads }
        requires time { time < 2 ^ 47 }
        requires timely { is_running (thread_of (model_of self.old) thread.0) ≡ false → IsTimely event }
        ensures { IfOk result (λ _. model_of self.new
            ≡ ended thread.0 event time (end_at program.now (model_of self.old) thread.0 event time)
            (consumed (is_running (thread_of (model_of self.old) thread.0)) event (model_of self.old))) }
    {
        let t = usize::from(thread.0);
        let end = self.evaluate(alloc, program, thread, event, time)?;
        if self.thread(t).running.is_none() {
            self.consume(event);
        }
        self.end(thread, event, time, end)
    }

    /// Takes an event whose service begins from its pipe, or moves its timer on.
    fn consume(&mut self, event: Event)
        requires timely { IsTimely event }
        requires few { (q : ℕ) → (pipe_of (model_of self.old) q).taken < 2 ^ 32 }
        ensures { model_of self.new ≡ consumed false event (model_of self.old) }
    {
        match event.origin {
            Origin::Source {
                source: _,
                count: _,
            } => {}
            Origin::Pipe { pipe, item: _ } => take_item(&mut self.pipes, pipe),
            Origin::Timer { timer, deadline } => move_on(&mut self.timers, timer, deadline),
        }
    }

    /// Makes what a task left behind current.
    fn end(
        &mut self,
        thread: ThreadId,
        event: Event,
        time: u64,
        end: TaskEnd,
    ) -> Result<(), NoMemory>
        requires there { thread.0 < length self.old.threads.items }
        requires served { (thread_of (model_of self.old) thread.0).served < 2 ^ 32 }
        requires trapped { (thread_of (model_of self.old) thread.0).trapped < 2 ^ 32 }
        requires commits { self.old.commits < 2 ^ 32 }
        ensures { IfOk result (λ _. model_of self.new ≡ ended thread.0 event time end (model_of self.old)) }
    {
        let TaskEnd {
            outcome,
            state,
            sends,
            outs,
            timers,
            executed: _,
        } = end;
        end_thread(
            &mut self.threads[usize::from(thread.0)],
            event,
            time,
            outcome,
            state,
        );
        put_sends(&mut self.pipes, sends.as_slice())?;
        set_timers(&mut self.timers, timers.as_slice());
        put_all(&mut self.outputs, self.commits + 1, thread, outs.as_slice())
    }
}

fn is_overdue(expires: Option<u32>, first: u64, time: u64) -> bool
    ensures { result ≡ is_overdue expires first time }
{
    match expires {
        None => false,
        Some(ticks) => u64::from(ticks) < time.saturating_sub(first),
    }
}
