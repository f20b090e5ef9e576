//! The threads that an image tells.

ghost use Rattle.std.specs.Prelude.{◌≡◌, ◌<◌, length, IfOk};
ghost use Rattle.fram_words.specs.Held.{running_of};
ghost use Rattle.fram_words.specs.Header as header;
ghost use Rattle.prog_check.specs.Lookup.{thread_def};
ghost use Rattle.thread_state.specs.Pages.{committed};
ghost use Rattle.image_state.specs.Words.{by_place};
ghost use Rattle.image_state.specs.kept.Told.{IsImageOf, each_below, state_number, told_event, told_thread};

use fram_words::{Header, read_next, read_origin};
use image_told::{committed_word, header_word, held, is_finished, released};
use ink_base::{Event, NoMemory, TaskId, ThreadId};
use ink_layout::Plan;
use never_cut::ThreadModel;
use sqlite_items::Items;
use std::alloc::Global;

/// The threads in order.
#[tactic(auto, using(crate::proofs::Each::each_more))]
pub(crate) fn threads_told(
    alloc: Global,
    plan: &Plan,
    words: &[u64],
) -> Result<Vec<ThreadModel>, NoMemory>
    requires { IsImageOf plan.now.accepted words.now }
    ensures { IfOk result (λ threads. threads.items
        ≡ each_below (told_thread plan.now.accepted (by_place plan.now.accepted words.now)) (length plan.now.accepted.threads)) }
{
    let mut threads = Vec::new(alloc);
    for t in 0..plan.program().threads.len() {
        threads.push(thread_told(alloc, plan, words, ThreadId(t as u8))?)?;
    }
    Ok(threads)
}

fn thread_told(
    alloc: Global,
    plan: &Plan,
    words: &[u64],
    thread: ThreadId,
) -> Result<ThreadModel, NoMemory>
    requires image { IsImageOf plan.now.accepted words.now }
    requires known { thread.0 < length plan.now.accepted.threads }
    ensures { IfOk result (λ x. x ≡ told_thread plan.now.accepted (by_place plan.now.accepted words.now) thread.0) }
{
    Ok(ThreadModel {
        state: Items::from_vec(state_told(alloc, plan, words, thread)?),
        running: running_told(plan, words, thread),
        event: event_told(plan, words, thread),
        first: header_word(plan, words, thread, Header::First),
        held: Items::from_vec(held(alloc, plan, words, thread)?),
        finished: is_finished(plan, words, thread),
        released: released(plan, words, thread),
        served: header_word(plan, words, thread, Header::Served),
        trapped: header_word(plan, words, thread, Header::Trapped),
        expired: header_word(plan, words, thread, Header::Expired),
    })
}

// The numbers of a thread's state, in order.
#[tactic(auto, using(crate::proofs::Each::each_more))]
fn state_told(
    alloc: Global,
    plan: &Plan,
    words: &[u64],
    thread: ThreadId,
) -> Result<Vec<u32>, NoMemory>
    requires image { IsImageOf plan.now.accepted words.now }
    requires known { thread.0 < length plan.now.accepted.threads }
    ensures { IfOk result (λ numbers. numbers.items
        ≡ each_below (state_number (by_place plan.now.accepted words.now) thread.0) (thread_def plan.now.accepted thread.0).state) }
{
    let mut numbers = Vec::new(alloc);
    let count = plan.program().threads.as_slice()[thread.0 as usize].state;
    for index in 0..count {
        numbers.push(number_told(plan, words, thread, index))?;
    }
    Ok(numbers)
}

// A number of a thread's state; it has 32 bits.
fn number_told(plan: &Plan, words: &[u64], thread: ThreadId, index: u16) -> u32
    requires image { IsImageOf plan.now.accepted words.now }
    requires known { thread.0 < length plan.now.accepted.threads }
    requires within { index < (thread_def plan.now.accepted thread.0).state }
    ensures { result ≡ state_number (by_place plan.now.accepted words.now) thread.0 index }
{
    committed_word(plan, words, thread, Header::WORDS + index as u32) as u32
}

// The task that a thread's chain goes on with; none where it is idle.
fn running_told(plan: &Plan, words: &[u64], thread: ThreadId) -> Option<TaskId>
    requires image { IsImageOf plan.now.accepted words.now }
    requires known { thread.0 < length plan.now.accepted.threads }
    ensures { result ≡ running_of (committed (by_place plan.now.accepted words.now) thread.0 header.next) }
{
    // The program is accepted, so its tasks are few.
    let _program = plan.program();
    read_next(header_word(plan, words, thread, Header::Next))
}

// The event that a thread's chain serves; none where it is idle.
fn event_told(plan: &Plan, words: &[u64], thread: ThreadId) -> Option<Event>
    requires image { IsImageOf plan.now.accepted words.now }
    requires known { thread.0 < length plan.now.accepted.threads }
    ensures { result ≡ told_event (by_place plan.now.accepted words.now) thread.0 }
{
    // The program is accepted, so its numbers fit the bits of an origin.
    let _program = plan.program();
    if header_word(plan, words, thread, Header::Next) == 0 {
        None
    } else {
        Some(Event {
            origin: read_origin(header_word(plan, words, thread, Header::Origin)),
            value: header_word(plan, words, thread, Header::Value) as u32,
        })
    }
}
