//! The row that follows each access of a scan.
ghost use Rattle.std.specs.Prelude.{◌≡◌, ◌≤◌, ◌<◌, ◌^◌, length};
ghost use Rattle.fram_words.specs.Held.{running_of};
ghost use Rattle.prog_check.specs.Lookup.{thread_def};
ghost use Rattle.priority_sched.specs.Scan.{scan_takes, scan_next, at_pipe, at_timer, after_finished, after_value, after_look, after_written, after_timer, IsScan, IsScanWord, IsWaiting};
ghost use Rattle.priority_sched.specs.Scan as scan;
ghost use Rattle.priority_sched.specs.Order as order;
ghost use Rattle.priority_sched.specs.declared.scan_at.ScanAt.TheVariants.{Running, Finished};

use crate::chain::Chain;
use crate::event::event_at;
use crate::idle::{Idle, Waiting};
use crate::machine::ScanMachine;
use crate::order::{next_below, priority_of};
use crate::pipes::{next_pipe, next_timer};
use crate::scan_at::ScanAt;
use event_pipe::has_item;
use fram_words::{read_next, read_origin};
use ink_base::limits::PRIORITY;
use ink_base::{Event, Origin, PipeId, TaskId, TimerId};
use ink_layout::Plan;
use persist_timer::is_due;

impl ScanMachine {
    /// Goes on after the access, which found this word.
    pub(crate) fn follow(&mut self, plan: &Plan, word: u64)
        requires row { IsScan plan.now.accepted self.old }
        requires range { IsScanWord plan.now.accepted self.old.at word }
        ensures taken { self.new ≡ scan_takes plan.now.accepted self.old.thread self.old.time self.old.at word }
        ensures row { IsScan plan.now.accepted self.new }
    {
        match self.at {
            ScanAt::Clock => {
                self.time = word;
                self.go_below(plan, PRIORITY as u32 + 1);
            }
            ScanAt::Commit => self.at = ScanAt::Running { commit_word: word },
            ScanAt::Running { commit_word } => self.after_running(plan, commit_word, word),
            ScanAt::Finished {
                commit_word,
                running,
            } => self.after_finished(commit_word, running, word as u32),
            ScanAt::Origin { chain } => {
                let origin = read_origin(word);
                self.at = ScanAt::Value { chain, origin };
            }
            ScanAt::Value { chain, origin } => self.after_value(plan, chain, origin, word as u32),
            ScanAt::First { chain, event } => self.pick_chain(chain, word, event),
            ScanAt::Slot {
                commit_word,
                position,
            } => self.after_look(plan, commit_word, position, event_at(position, word)),
            ScanAt::Taken { idle, pipe } => self.after_taken(idle, pipe, word),
            ScanAt::Writer { waiting } => self.after_writer(waiting, word),
            ScanAt::Written { waiting, .. } => self.after_written(plan, waiting, word),
            ScanAt::Item { waiting } => self.pick_item(waiting, word as u32),
            ScanAt::Timer { idle, timer } => self.after_timer(plan, idle, timer, word),
            ScanAt::Picked { .. } | ScanAt::Quiet => {}
        }
    }

    /// The first row of the thread of the greatest priority below the bound, or the end where there is none.
    fn go_below(&mut self, plan: &Plan, bound: u32)
        requires { self.old.thread.0 < length plan.now.accepted.threads }
        ensures next { self.new ≡ scan_next self.old.thread self.old.time (order.next_below plan.now.accepted bound) }
        ensures row { IsScan plan.now.accepted self.new }
    {
        match next_below(plan.program(), bound) {
            Some(thread) => {
                self.thread = thread;
                self.at = ScanAt::Commit;
            }
            None => self.at = ScanAt::Quiet,
        }
    }

    /// The row of the thread's first pipe from this number on; where there is none, that of its first timer.
    fn go_to_pipe(&mut self, plan: &Plan, idle: Idle, from: usize)
        requires thread { self.old.thread.0 < length plan.now.accepted.threads }
        requires from { from ≤ length plan.now.accepted.pipes }
        ensures next { self.new ≡ at_pipe plan.now.accepted self.old.thread self.old.time idle (scan.next_pipe plan.now.accepted self.old.thread.0 from) }
        ensures row { IsScan plan.now.accepted self.new }
    {
        match next_pipe(plan.program(), self.thread, from) {
            Some(pipe) => {
                let pipe = PipeId(pipe as u8);
                self.at = ScanAt::Taken { idle, pipe };
            }
            None => self.go_to_timer(plan, idle, 0),
        }
    }

    /// The row of the thread's first timer from this number on; where there is none, the thread is passed.
    fn go_to_timer(&mut self, plan: &Plan, idle: Idle, from: usize)
        requires thread { self.old.thread.0 < length plan.now.accepted.threads }
        requires from { from ≤ length plan.now.accepted.timers }
        ensures next { self.new ≡ at_timer plan.now.accepted self.old.thread self.old.time idle (scan.next_timer plan.now.accepted self.old.thread.0 from) }
        ensures row { IsScan plan.now.accepted self.new }
    {
        match next_timer(plan.program(), self.thread, from) {
            Some(timer) => {
                let timer = TimerId(timer as u8);
                self.at = ScanAt::Timer { idle, timer };
            }
            None => {
                let priority = priority_of(plan.program(), self.thread.0 as usize);
                self.go_below(plan, priority as u32);
            }
        }
    }

    /// After the word that tells the next task of a chain.
    fn after_running(&mut self, plan: &Plan, commit_word: u64, word: u64)
        requires { IsScanWord plan.now.accepted (Running commit_word) word }
        ensures { self.new ≡ record self.old { at = Finished commit_word (running_of word) } }
    {
        let _program = plan.program();
        self.at = ScanAt::Finished {
            commit_word,
            running: read_next(word),
        };
    }

    /// After the number of finished events: an idle thread's queue is looked at, a running chain is picked.
    fn after_finished(&mut self, commit_word: u64, running: Option<TaskId>, position: u32)
        ensures { self.new ≡ after_finished self.old.thread self.old.time commit_word position running }
    {
        self.at = match running {
            None => ScanAt::Slot {
                commit_word,
                position,
            },
            Some(running) => {
                let chain = Chain {
                    commit_word,
                    running,
                    position,
                };
                ScanAt::Origin { chain }
            }
        };
    }

    /// After the value of a running chain's event.
    fn after_value(&mut self, plan: &Plan, chain: Chain, origin: Origin, value: u32)
        requires { self.old.thread.0 < length plan.now.accepted.threads }
        ensures { self.new ≡ after_value self.old.thread self.old.time chain (record { origin = origin; value = value }) (thread_def plan.now.accepted self.old.thread.0).expires }
    {
        let event = Event { origin, value };
        match plan.program().threads.as_slice()[self.thread.0 as usize].expires {
            None => self.pick_chain(chain, 0, event),
            Some(_) => self.at = ScanAt::First { chain, event },
        }
    }

    /// After the look at a slot: its event is picked, or the thread's pipes and timers follow.
    fn after_look(&mut self, plan: &Plan, commit_word: u64, position: u32, event: Option<Event>)
        requires { self.old.thread.0 < length plan.now.accepted.threads }
        ensures taken { self.new ≡ after_look plan.now.accepted self.old.thread self.old.time commit_word position event }
        ensures row { IsScan plan.now.accepted self.new }
    {
        match event {
            Some(event) => self.pick_queued(commit_word, position, event),
            None => {
                let idle = Idle {
                    commit_word,
                    position,
                };
                self.go_to_pipe(plan, idle, 0);
            }
        }
    }

    /// After the number of taken items of a pipe.
    fn after_taken(&mut self, idle: Idle, pipe: PipeId, taken: u64)
        ensures { self.new ≡ record self.old { at = scan.after_taken idle pipe taken } }
    {
        let waiting = Waiting { idle, pipe, taken };
        self.at = ScanAt::Writer { waiting };
    }

    /// After the commit word of the pipe's writer.
    fn after_writer(&mut self, waiting: Waiting, commit_word: u64)
        ensures { self.new ≡ record self.old { at = scan.after_writer waiting commit_word } }
    {
        self.at = ScanAt::Written {
            waiting,
            commit_word,
        };
    }

    /// After the number of written items of a pipe: where an item waits it is loaded, else the next pipe follows.
    fn after_written(&mut self, plan: &Plan, waiting: Waiting, written: u64)
        requires thread { self.old.thread.0 < length plan.now.accepted.threads }
        requires waiting { IsWaiting plan.now.accepted waiting }
        requires ordered { waiting.taken ≤ written }
        ensures taken { self.new ≡ after_written plan.now.accepted self.old.thread self.old.time waiting written }
        ensures row { IsScan plan.now.accepted self.new }
    {
        if has_item(written, waiting.taken) {
            self.at = ScanAt::Item { waiting };
        } else {
            self.go_to_pipe(plan, waiting.idle, waiting.pipe.0 as usize + 1);
        }
    }

    /// After the word of a timer: where it is due it is picked, else the next timer follows.
    fn after_timer(&mut self, plan: &Plan, idle: Idle, timer: TimerId, word: u64)
        requires thread { self.old.thread.0 < length plan.now.accepted.threads }
        requires known { timer.0 < length plan.now.accepted.timers }
        ensures taken { self.new ≡ after_timer plan.now.accepted self.old.thread self.old.time idle timer word }
        ensures row { IsScan plan.now.accepted self.new }
    {
        if is_due(word, self.time) {
            self.pick_timer(idle, timer, word);
        } else {
            self.go_to_timer(plan, idle, timer.0 as usize + 1);
        }
    }
}
