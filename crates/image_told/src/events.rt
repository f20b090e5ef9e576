//! The events that a queue holds: those that stand from its first position that isn't released on, up to the first slot without one.

ghost use Rattle.std.specs.Prelude.{◌≡◌, ◌==◌, ◌<◌, ◌≤◌, length, take, slice_get, IfOk};
ghost use Rattle.prog_check.specs.Lookup.{thread_def};
ghost use Rattle.fram_words.specs.Shape.{memory_of};
ghost use Rattle.ink_layout.specs.Shape.{shape_of, words_of};
ghost use Rattle.push_core.specs.Queue as queue;
ghost use Rattle.never_cut.specs.ReadOff.{told_held, told_queue};
ghost use Rattle.never_cut.specs.Image as image;

use crate::queue::{event_at, fed, places, released};
use ink_base::{Event, NoMemory, Origin, SourceId, ThreadId};
use ink_layout::Plan;
use std::alloc::Global;

/// How many events the queue of a thread holds.
pub fn held_count(plan: &Plan, words: &[u64], thread: ThreadId) -> u32
    requires count { length words.now ≡ words_of (shape_of plan.now.accepted) }
    requires known { thread.0 < length plan.now.accepted.threads }
    ensures number { result ≡ length (told_held plan.now.accepted (memory_of (shape_of plan.now.accepted) words.now) thread.0) }
    ensures few { result ≤ (thread_def plan.now.accepted thread.0).queue }
{
    let places = places(plan, thread) as u32;
    let first = released(plan, words, thread);
    for k in 0..places {
        if event_at(plan, words, thread, first + k as u64).is_none() {
            return k;
        }
    }
    places
}

/// How many events were published in the thread's queue: those that are released, and those that it holds.
pub fn published(plan: &Plan, words: &[u64], thread: ThreadId) -> u128
    requires count { length words.now ≡ words_of (shape_of plan.now.accepted) }
    requires known { thread.0 < length plan.now.accepted.threads }
    ensures { result ≡ queue.published (told_queue plan.now.accepted (memory_of (shape_of plan.now.accepted) words.now) thread.0) }
{
    released(plan, words, thread) as u128 + held_count(plan, words, thread) as u128
}

/// The event at a place among them, counted from 0.
pub fn held_at(plan: &Plan, words: &[u64], thread: ThreadId, place: u32) -> Event
    requires count { length words.now ≡ words_of (shape_of plan.now.accepted) }
    requires known { thread.0 < length plan.now.accepted.threads }
    requires held { place < length (told_held plan.now.accepted (memory_of (shape_of plan.now.accepted) words.now) thread.0) }
    ensures { result ≡ queue.event_at (told_held plan.now.accepted (memory_of (shape_of plan.now.accepted) words.now) thread.0) place }
{
    let first = released(plan, words, thread);
    match event_at(plan, words, thread, first + place as u64) {
        Some(event) => event,
        None => unreachable!(),
    }
}

/// The event at that place; none behind the last.
pub fn held_event(plan: &Plan, words: &[u64], thread: ThreadId, place: u32) -> Option<Event>
    requires count { length words.now ≡ words_of (shape_of plan.now.accepted) }
    requires known { thread.0 < length plan.now.accepted.threads }
    ensures { result ≡ slice_get (told_held plan.now.accepted (memory_of (shape_of plan.now.accepted) words.now) thread.0) place }
{
    if place < held_count(plan, words, thread) {
        Some(held_at(plan, words, thread, place))
    } else {
        None
    }
}

/// All of them in order.
pub fn held(
    alloc: Global,
    plan: &Plan,
    words: &[u64],
    thread: ThreadId,
) -> Result<Vec<Event>, NoMemory>
    requires count { length words.now ≡ words_of (shape_of plan.now.accepted) }
    requires known { thread.0 < length plan.now.accepted.threads }
    ensures { IfOk result (λ events. events.items ≡ told_held plan.now.accepted (memory_of (shape_of plan.now.accepted) words.now) thread.0) }
{
    let mut events = Vec::new(alloc);
    for place in 0..held_count(plan, words, thread) {
        events.push(held_at(plan, words, thread, place))?;
    }
    Ok(events)
}

/// How many of the first so many of them are of a source, in the queue that it feeds.
pub fn own_before(plan: &Plan, words: &[u64], source: SourceId, place: u32) -> u32
    requires count { length words.now ≡ words_of (shape_of plan.now.accepted) }
    requires known { source.0 < length plan.now.accepted.sources }
    requires held { place ≤ length (image.held_for plan.now.accepted (memory_of (shape_of plan.now.accepted) words.now) source.0) }
    ensures own { let memory = memory_of (shape_of plan.now.accepted) words.now in
        result ≡ image.own_events source.0 (take place (image.held_for plan.now.accepted memory source.0)) }
    ensures few { result ≤ place }
{
    let thread = fed(plan, source);
    let mut own = 0;
    for k in 0..place {
        own += is_of(source, held_at(plan, words, thread, k)) as u32;
    }
    own
}

/// How many of all of them are of the source.
pub fn own_events(plan: &Plan, words: &[u64], source: SourceId) -> u32
    requires count { length words.now ≡ words_of (shape_of plan.now.accepted) }
    requires known { source.0 < length plan.now.accepted.sources }
    ensures { let memory = memory_of (shape_of plan.now.accepted) words.now in
        result ≡ image.own_events source.0 (image.held_for plan.now.accepted memory source.0) }
{
    own_before(
        plan,
        words,
        source,
        held_count(plan, words, fed(plan, source)),
    )
}

// Whether the event is of the source.
fn is_of(source: SourceId, event: Event) -> bool
    ensures { result ≡ (queue.event_source event == source.0) }
{
    match event.origin {
        Origin::Source { source: of, .. } => of == source,
        _ => false,
    }
}
