//! The event that a thread serves next.

ghost use Rattle.std.specs.Prelude.{◌≡◌, ◌^◌, ◌<◌, drop, length, slice_index_or, IfSome};
ghost use Rattle.prog_check.specs.Accepted.{IsAccepted};
ghost use Rattle.never_cut.specs.State.{is_looked, no_pipe, unfinished};
ghost use Rattle.never_cut.specs.Pending.{first_number, first_of, has_item, has_due, is_due_by, item_event, timer_event, due_event, later_event, pending_in, pending};
ghost use Rattle.never_cut.specs.Within.{HasRoom};
ghost use Rattle.never_cut.specs.Replaying.{model_of};

use crate::replaying::Replaying;
use crate::scan_model::ScanModel;
use crate::thread_model::ThreadModel;
use ink_base::{Event, Origin, PipeId, ThreadId, TimerId};
use task_isa::Program;

impl Replaying {
    /// The pending event of a thread, where there is a scan.
    pub(crate) fn pending(&self, program: &Program, t: usize) -> Option<Event>
        requires accepted { IsAccepted program.now }
        requires room { HasRoom program.now (model_of self.now) }
        requires thread { t < length program.now.threads }
        ensures { result ≡ pending program.now (model_of self.now) t }
    {
        match &self.scan {
            None => None,
            Some(scan) => self.pending_in(program, t, scan),
        }
    }

    fn pending_in(&self, program: &Program, t: usize, scan: &ScanModel) -> Option<Event>
        requires accepted { IsAccepted program.now }
        requires room { HasRoom program.now (model_of self.now) }
        requires thread { t < length program.now.threads }
        ensures { result ≡ pending_in program.now (model_of self.now) t scan.now }
    {
        let thread = self.thread(t);
        match thread.running {
            Some(_) => thread.event,
            None => {
                if was_looked_at(scan.looked.as_slice(), t) {
                    self.later_event(program, t, scan.time)
                } else {
                    first_unfinished(thread)
                }
            }
        }
    }

    /// The first item of the lowest pipe that the thread reads and that has one, else the lowest timer of the thread that is due.
    pub(crate) fn later_event(&self, program: &Program, t: usize, time: u64) -> Option<Event>
        requires accepted { IsAccepted program.now }
        requires room { HasRoom program.now (model_of self.now) }
        ensures { result ≡ later_event program.now (model_of self.now) t time }
    {
        match self.first_pipe(program, t) {
            Some(q) => Some(self.item_event(q)),
            None => self.due_event(self.first_timer(program, t, time)),
        }
    }

    fn first_pipe(&self, program: &Program, t: usize) -> Option<usize>
        requires accepted { IsAccepted program.now }
        requires room { HasRoom program.now (model_of self.now) }
        ensures first { result ≡ first_number (has_item program.now (model_of self.now) t) 0 (length program.now.pipes) }
        ensures there { IfSome result (λ q. q < length program.now.pipes) }
    {
        for q in 0..program.pipes.len() {
            if self.has_item(program, t, q) {
                return Some(q);
            }
        }
        None
    }

    fn has_item(&self, program: &Program, t: usize, q: usize) -> bool
        requires room { HasRoom program.now (model_of self.now) }
        requires pipe { q < length program.now.pipes }
        ensures { result ≡ has_item program.now (model_of self.now) t q }
    {
        usize::from(program.pipes.as_slice()[q].reader.0) == t && self.pipe(q).items.len() > 0
    }

    fn item_event(&self, q: usize) -> Event
        requires pipe { q < length self.now.pipes.items }
        requires few { q < 256 }
        requires taken { (slice_index_or self.now.pipes.items q no_pipe).taken < 2 ^ 32 }
        ensures { result ≡ item_event (model_of self.now) q }
    {
        let pipe = self.pipe(q);
        Event {
            origin: Origin::Pipe {
                pipe: PipeId(q as u8),
                item: pipe.taken as u32,
            },
            value: pipe.items.as_slice().first().copied().unwrap_or(0),
        }
    }

    fn first_timer(&self, program: &Program, t: usize, time: u64) -> Option<usize>
        requires accepted { IsAccepted program.now }
        ensures first { result ≡ first_number (has_due program.now (model_of self.now) t time) 0 (length program.now.timers) }
        ensures there { IfSome result (λ j. j < length program.now.timers) }
    {
        for j in 0..program.timers.len() {
            if self.has_due(program, t, time, j) {
                return Some(j);
            }
        }
        None
    }

    fn has_due(&self, program: &Program, t: usize, time: u64, j: usize) -> bool
        requires { j < length program.now.timers }
        ensures { result ≡ has_due program.now (model_of self.now) t time j }
    {
        usize::from(program.timers.as_slice()[j].thread.0) == t && is_due(self.timer(j).due, time)
    }

    fn due_event(&self, timer: Option<usize>) -> Option<Event>
        requires { IfSome timer (λ j. j < 256) }
        ensures { result ≡ due_event (model_of self.now) timer }
    {
        match timer {
            None => None,
            Some(j) => self.timer(j).due.map(|due| event_of_timer(j, due)),
        }
    }
}

fn event_of_timer(j: usize, due: u64) -> Event
    requires { j < 256 }
    ensures { result ≡ timer_event j due }
{
    Event {
        origin: Origin::Timer {
            timer: TimerId(j as u8),
            deadline: due,
        },
        value: (due % (1 << 32)) as u32,
    }
}

fn is_due(due: Option<u64>, time: u64) -> bool
    ensures { result ≡ is_due_by due time }
{
    match due {
        None => false,
        Some(due) => due <= time,
    }
}

/// Whether a thread is among those.
pub(crate) fn was_looked_at(looked: &[ThreadId], t: usize) -> bool
    ensures { result ≡ is_looked looked.now t }
{
    looked.iter().any(|u| usize::from(u.0) == t)
}

fn first_unfinished(thread: &ThreadModel) -> Option<Event>
    ensures { result ≡ first_of (unfinished thread.now) }
{
    let held = thread.held.as_slice();
    if thread.finished {
        second(held)
    } else {
        first(held)
    }
}

fn first(events: &[Event]) -> Option<Event>
    ensures { result ≡ first_of events.now }
{
    match events {
        [] => None,
        [event, ..] => Some(*event),
    }
}

fn second(events: &[Event]) -> Option<Event>
    ensures { result ≡ first_of (drop 1 events.now) }
{
    match events {
        [] => None,
        [_, rest @ ..] => first(rest),
    }
}
