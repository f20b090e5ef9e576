//! What a commit makes of the thread, the pipes and the timers.

ghost use Rattle.std.specs.Prelude.{◌≡◌, ◌<◌, ◌^◌, ◌∷◌, [], slice_index_or, IfOk};
ghost use Rattle.never_cut.specs.State.{no_pipe};
ghost use Rattle.never_cut.specs.Commit.{expired_after, is_of_queue, moved_on, next_due, set_by, taken_from, thread_after, with_end, with_first, with_item, with_sends, with_timers};

use crate::pipe_model::PipeModel;
use crate::thread_model::ThreadModel;
use crate::timer_model::TimerModel;
use ink_base::{Event, NoMemory, Origin, PipeId, TimerId};
use sqlite_items::Items;
use task_isa::{Outcome, Sent, TimerSet};

/// The thread whose chain is expired.
pub(crate) fn expire(thread: &mut ThreadModel, event: Event)
    requires { thread.old.expired < 2 ^ 32 }
    ensures { thread.new ≡ expired_after event thread.old }
{
    thread.expired += 1;
    finish(thread, event);
}

/// The thread after its task ended, with the task's state.
pub(crate) fn end_thread(
    thread: &mut ThreadModel,
    event: Event,
    time: u64,
    outcome: Outcome,
    state: Items<u32>,
)
    requires served { thread.old.served < 2 ^ 32 }
    requires trapped { thread.old.trapped < 2 ^ 32 }
    ensures { thread.new ≡ thread_after event outcome state (with_first time thread.old) }
{
    if thread.running.is_none() {
        thread.first = time;
    }
    match outcome {
        Outcome::Next(task) => {
            thread.state = state;
            thread.running = Some(task);
            thread.event = Some(event);
        }
        Outcome::Done => {
            thread.state = state;
            thread.served += 1;
            finish(thread, event);
        }
        Outcome::Trap(_) => {
            thread.trapped += 1;
            finish(thread, event);
        }
    }
}

/// The service is over; the event of a queue is finished.
fn finish(thread: &mut ThreadModel, event: Event)
    ensures { thread.new ≡ with_end event thread.old }
{
    thread.running = None;
    thread.event = None;
    if is_of_queue(event) {
        thread.finished = true;
    }
}

fn is_of_queue(event: Event) -> bool
    ensures { result ≡ is_of_queue event }
{
    match event.origin {
        Origin::Source {
            source: _,
            count: _,
        } => true,
        Origin::Pipe { pipe: _, item: _ }
        | Origin::Timer {
            timer: _,
            deadline: _,
        } => false,
    }
}

/// The first item of a pipe leaves it.
pub(crate) fn take_item(pipes: &mut [PipeModel], pipe: PipeId)
    requires { (slice_index_or pipes.old pipe.0 no_pipe).taken < 2 ^ 32 }
    ensures { pipes.new ≡ taken_from (Origin.Pipe pipe 0) pipes.old }
{
    let q = usize::from(pipe.0);
    if q < pipes.len() {
        let pipe = &mut pipes[q];
        if !pipe.items.is_empty() {
            pipe.items.remove(0);
        }
        pipe.taken += 1;
    }
}

/// A timer is due one period later, or off where it has none.
pub(crate) fn move_on(timers: &mut [TimerModel], timer: TimerId, deadline: u64)
    requires { deadline < 2 ^ 47 }
    ensures { timers.new ≡ moved_on (Origin.Timer timer deadline) timers.old }
{
    let j = usize::from(timer.0);
    if j < timers.len() {
        timers[j] = next_of(deadline, timers[j]);
    }
}

fn next_of(deadline: u64, timer: TimerModel) -> TimerModel
    requires { deadline < 2 ^ 47 }
    ensures { result ≡ record timer { due = next_due deadline timer } }
{
    let due = if timer.period == 0 {
        None
    } else {
        Some(deadline + u64::from(timer.period))
    };
    TimerModel { due, ..timer }
}

/// What a task sent is in its pipes.
pub(crate) fn put_sends(pipes: &mut [PipeModel], sends: &[Sent]) -> Result<(), NoMemory>
    ensures { IfOk result (λ _. pipes.new ≡ with_sends sends.now pipes.old) }
{
    for sent in sends {
        put_item(pipes, *sent)?;
    }
    Ok(())
}

fn put_item(pipes: &mut [PipeModel], sent: Sent) -> Result<(), NoMemory>
    ensures { IfOk result (λ _. pipes.new ≡ with_item sent pipes.old) }
{
    let q = usize::from(sent.pipe.0);
    if q < pipes.len() {
        let pipe = &mut pipes[q];
        pipe.items.push(sent.value)?;
    }
    Ok(())
}

/// The timers as a task set them.
pub(crate) fn set_timers(timers: &mut [TimerModel], settings: &[TimerSet])
    ensures { timers.new ≡ with_timers settings.now timers.old }
{
    for setting in settings {
        set_timer(timers, *setting);
    }
}

fn set_timer(timers: &mut [TimerModel], setting: TimerSet)
    ensures { timers.new ≡ with_timers (setting ∷ []) timers.old }
{
    let j = usize::from(setting.timer.0);
    if j < timers.len() {
        timers[j] = timer_set(setting, timers[j]);
    }
}

fn timer_set(setting: TimerSet, timer: TimerModel) -> TimerModel
    ensures { result ≡ set_by setting timer }
{
    match setting.due {
        None => TimerModel { due: None, ..timer },
        Some(due) => TimerModel {
            due: Some(due),
            period: setting.period,
        },
    }
}
