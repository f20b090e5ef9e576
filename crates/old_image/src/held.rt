//! The events that a queue holds in the earlier form, and what they tell of a source.

ghost use Rattle.std.specs.Prelude.{◌≡◌, ◌==◌, ◌<◌, ◌≤◌, ◌^◌, length, take};
ghost use Rattle.ink_base.specs.declared.limits.TheConstants as limits;
ghost use Rattle.prog_check.specs.Lookup.{thread_def};
ghost use Rattle.ink_layout.specs.Shape.{shape_of, words_of};
ghost use Rattle.image_checks.specs.Board.{board};
ghost use Rattle.old_image.specs.Told as told;

use crate::old_event::OldEvent;
use crate::queue::{old_event_at, old_released};
use fram_words::Place;
use image_told::{fed, places, word_at};
use ink_base::{SourceId, ThreadId};
use ink_layout::Plan;

/// How many events the queue of a thread holds.
pub(crate) fn old_held_count(plan: &Plan, words: &[u64], thread: ThreadId) -> u32
    requires count { length words.now ≡ words_of (shape_of plan.now.accepted) }
    requires known { thread.0 < length plan.now.accepted.threads }
    ensures number { result ≡ length (told.old_held plan.now.accepted (board plan.now.accepted words.now) thread.0) }
    ensures few { result ≤ (thread_def plan.now.accepted thread.0).queue }
{
    let places = places(plan, thread) as u32;
    let first = old_released(plan, words, thread);
    for k in 0..places {
        if old_event_at(plan, words, thread, first + k as u64).is_none() {
            return k;
        }
    }
    places
}

/// How many events were published in the thread's queue: those that are released, and those that it holds.
pub(crate) fn old_published(plan: &Plan, words: &[u64], thread: ThreadId) -> u128
    requires count { length words.now ≡ words_of (shape_of plan.now.accepted) }
    requires known { thread.0 < length plan.now.accepted.threads }
    ensures number { result ≡ told.old_published plan.now.accepted (board plan.now.accepted words.now) thread.0 }
    ensures fits { result < 2 ^ 65 }
{
    old_released(plan, words, thread) as u128 + old_held_count(plan, words, thread) as u128
}

/// The event that stands at a place among them, counted from 0.
pub(crate) fn old_held_event(plan: &Plan, words: &[u64], thread: ThreadId, place: u32) -> OldEvent
    requires count { length words.now ≡ words_of (shape_of plan.now.accepted) }
    requires known { thread.0 < length plan.now.accepted.threads }
    requires held { place < length (told.old_held plan.now.accepted (board plan.now.accepted words.now) thread.0) }
    ensures { result ≡ told.old_event_at (told.old_held plan.now.accepted (board plan.now.accepted words.now) thread.0) place }
{
    let first = old_released(plan, words, thread);
    match old_event_at(plan, words, thread, first + place as u64) {
        Some(event) => event,
        None => unreachable!(),
    }
}

/// How many events the queue of a source holds.
pub(crate) fn count_for(plan: &Plan, words: &[u64], source: SourceId) -> u32
    requires count { length words.now ≡ words_of (shape_of plan.now.accepted) }
    requires known { source.0 < length plan.now.accepted.sources }
    ensures number { result ≡ length (told.old_held_for plan.now.accepted (board plan.now.accepted words.now) source.0) }
    ensures few { result ≤ limits.QUEUE_PLACES }
{
    // A queue has few places.
    let _program = plan.program();
    old_held_count(plan, words, fed(plan, source))
}

/// The event that stands at a place among them, counted from 0.
pub(crate) fn event_for(plan: &Plan, words: &[u64], source: SourceId, place: u32) -> OldEvent
    requires count { length words.now ≡ words_of (shape_of plan.now.accepted) }
    requires known { source.0 < length plan.now.accepted.sources }
    requires held { place < length (told.old_held_for plan.now.accepted (board plan.now.accepted words.now) source.0) }
    ensures { result ≡ told.old_event_at (told.old_held_for plan.now.accepted (board plan.now.accepted words.now) source.0) place }
{
    old_held_event(plan, words, fed(plan, source), place)
}

/// Whether an event is of a source.
pub(crate) fn is_of(source: SourceId, event: OldEvent) -> bool
    ensures { result ≡ told.is_of source.0 event }
{
    event.source == source
}

/// How many of the first so many events of a source's queue are of the source.
pub(crate) fn own_before(plan: &Plan, words: &[u64], source: SourceId, place: u32) -> u32
    requires count { length words.now ≡ words_of (shape_of plan.now.accepted) }
    requires known { source.0 < length plan.now.accepted.sources }
    requires held { place ≤ length (told.old_held_for plan.now.accepted (board plan.now.accepted words.now) source.0) }
    ensures own { let memory = board plan.now.accepted words.now in
        result ≡ told.own_old source.0 (take place (told.old_held_for plan.now.accepted memory source.0)) }
    ensures few { result ≤ place }
{
    let mut own = 0;
    for k in 0..place {
        own += is_of(source, event_for(plan, words, source, k)) as u32;
    }
    own
}

/// How many of all of them are of the source.
pub(crate) fn own_held(plan: &Plan, words: &[u64], source: SourceId) -> u32
    requires count { length words.now ≡ words_of (shape_of plan.now.accepted) }
    requires known { source.0 < length plan.now.accepted.sources }
    ensures { result ≡ told.own_old source.0 (told.old_held_for plan.now.accepted (board plan.now.accepted words.now) source.0) }
{
    own_before(plan, words, source, count_for(plan, words, source))
}

/// One more than the greatest number of a reading of the source among the first so many events; 0 where none of them is of it.
pub(crate) fn after_first(plan: &Plan, words: &[u64], source: SourceId, place: u32) -> u32
    requires count { length words.now ≡ words_of (shape_of plan.now.accepted) }
    requires known { source.0 < length plan.now.accepted.sources }
    requires held { place ≤ length (told.old_held_for plan.now.accepted (board plan.now.accepted words.now) source.0) }
    ensures { let memory = board plan.now.accepted words.now in
        result ≡ told.after_held source.0 (take place (told.old_held_for plan.now.accepted memory source.0)) }
{
    let mut after: u32 = 0;
    for k in 0..place {
        after = after.max(after_event(source, event_for(plan, words, source, k)));
    }
    after
}

// One more than the number of an event's reading; 0 where the event isn't of the source.
fn after_event(source: SourceId, event: OldEvent) -> u32
    ensures { result ≡ told.after_event source.0 event }
{
    if is_of(source, event) {
        event.reading as u32 + 1
    } else {
        0
    }
}

/// The number of the source's next reading.
pub(crate) fn old_next(plan: &Plan, words: &[u64], source: SourceId) -> u64
    requires count { length words.now ≡ words_of (shape_of plan.now.accepted) }
    requires known { source.0 < length plan.now.accepted.sources }
    ensures { result ≡ told.old_next plan.now.accepted (board plan.now.accepted words.now) source.0 }
{
    let src = word_at(plan, words, Place::Src { source });
    let ack = word_at(plan, words, Place::Ack { source });
    let held = after_first(plan, words, source, count_for(plan, words, source));
    src.max(ack).max(held as u64)
}
