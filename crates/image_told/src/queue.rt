//! The queue of a thread: its slots, and how many of its events are released.

ghost use Rattle.std.specs.Prelude.{◌≡◌, ◌<◌, ◌^◌, ◌==◌, ◌&&◌, nat_lt, length};
ghost use Rattle.std.specs.Option.{ForSome};
ghost use Rattle.prog_check.specs.Lookup.{source_thread, thread_def};
ghost use Rattle.fram_words.specs.Shape.{memory_of};
ghost use Rattle.fram_words.specs.Steps.{place_of};
ghost use Rattle.push_core.specs.Slots.{IsSlot, word_of};
ghost use Rattle.ink_layout.specs.Shape.{IsOnBoard, shape_of, words_of};
ghost use Rattle.ink_layout.specs.Slots.{slot_place};
ghost use Rattle.never_cut.specs.ReadOff as told;

use crate::words::{header_word, word_at};
use fram_words::{Header, Place};
use ink_base::{Event, Origin, SourceId, ThreadId};
use ink_layout::Plan;
use push_core::{Slot, read_slot};

/// The thread that a source feeds.
pub fn fed(plan: &Plan, source: SourceId) -> ThreadId
    requires { source.0 < length plan.now.accepted.sources }
    ensures thread { result.0 ≡ source_thread plan.now.accepted source.0 }
    ensures known { result.0 < length plan.now.accepted.threads }
{
    plan.program().sources.as_slice()[source.0 as usize]
}

/// How many places the queue of a thread has.
pub fn places(plan: &Plan, thread: ThreadId) -> u8
    requires { thread.0 < length plan.now.accepted.threads }
    ensures places { result ≡ (thread_def plan.now.accepted thread.0).queue }
    ensures some { 0 < result }
{
    plan.program().threads.as_slice()[thread.0 as usize].queue
}

/// What the slot of a position holds, in the queue of a thread; none where it is no slot's word.
pub fn slot_of(plan: &Plan, words: &[u64], thread: ThreadId, position: u64) -> Option<Slot>
    requires count { length words.now ≡ words_of (shape_of plan.now.accepted) }
    requires known { thread.0 < length plan.now.accepted.threads }
    ensures computed { result ≡ told.slot_of plan.now.accepted (memory_of (shape_of plan.now.accepted) words.now) thread.0 position }
    ensures read { let memory = memory_of (shape_of plan.now.accepted) words.now in
        ForSome result (λ slot. IsSlot slot × (word_of slot ≡ memory (slot_place plan.now.accepted thread.0 position))) }
{
    read_slot(word_at(plan, words, slot_place(plan, thread, position)))
}

/// The slot of a position.
pub fn slot_place(plan: &Plan, thread: ThreadId, position: u64) -> Place
    requires { thread.0 < length plan.now.accepted.threads }
    ensures place { place_of result ≡ slot_place plan.now.accepted thread.0 position }
    ensures there { IsOnBoard plan.now.accepted (place_of result) }
{
    Place::Slot {
        thread,
        index: (position % places(plan, thread) as u64) as u32,
    }
}

/// The event of a slot, where it is a full one of this position from a source of the thread.
pub fn event_in(plan: &Plan, thread: ThreadId, position: u64, slot: Option<Slot>) -> Option<Event>
    ensures { result ≡ told.event_in plan.now.accepted thread.0 position slot }
{
    match slot {
        Some(
            Slot::Full {
                position: of,
                source,
                count,
                value,
            },
        ) => {
            if of as u64 == position && feeds(plan, source, thread) {
                Some(Event {
                    origin: Origin::Source { source, count },
                    value,
                })
            } else {
                None
            }
        }
        _ => None,
    }
}

// The source is declared, and it feeds the thread.
fn feeds(plan: &Plan, source: SourceId, thread: ThreadId) -> bool
    ensures { result ≡ (nat_lt source.0 (length plan.now.accepted.sources) && (source_thread plan.now.accepted source.0 == thread.0)) }
{
    match plan.program().sources.as_slice().get(source.0 as usize) {
        Some(fed) => *fed == thread,
        None => false,
    }
}

/// The event that stands at a position of a thread's queue, where the slot of the position holds one.
pub fn event_at(plan: &Plan, words: &[u64], thread: ThreadId, position: u64) -> Option<Event>
    requires count { length words.now ≡ words_of (shape_of plan.now.accepted) }
    requires known { thread.0 < length plan.now.accepted.threads }
    ensures event { let memory = memory_of (shape_of plan.now.accepted) words.now in
        result ≡ told.event_in plan.now.accepted thread.0 position (told.slot_of plan.now.accepted memory thread.0 position) }
    ensures small { ForSome result (λ event. position < 2 ^ 21) }
{
    event_in(
        plan,
        thread,
        position,
        slot_of(plan, words, thread, position),
    )
}

/// Whether the event that the thread finished last still stands in its slot.
pub fn is_finished(plan: &Plan, words: &[u64], thread: ThreadId) -> bool
    requires count { length words.now ≡ words_of (shape_of plan.now.accepted) }
    requires known { thread.0 < length plan.now.accepted.threads }
    ensures { result ≡ told.told_finished plan.now.accepted (memory_of (shape_of plan.now.accepted) words.now) thread.0 }
{
    match header_word(plan, words, thread, Header::Finished).checked_sub(1) {
        Some(last) => is_full_of(last, slot_of(plan, words, thread, last)),
        None => false,
    }
}

// Whether it is a full slot of this position.
fn is_full_of(position: u64, slot: Option<Slot>) -> bool
    ensures { result ≡ told.is_full_of position slot }
{
    match slot {
        Some(Slot::Full { position: of, .. }) => of as u64 == position,
        _ => false,
    }
}

/// How many events of the thread's queue are released: those that are finished, without one that still stands in its slot.
pub fn released(plan: &Plan, words: &[u64], thread: ThreadId) -> u64
    requires count { length words.now ≡ words_of (shape_of plan.now.accepted) }
    requires known { thread.0 < length plan.now.accepted.threads }
    ensures { result ≡ told.told_released plan.now.accepted (memory_of (shape_of plan.now.accepted) words.now) thread.0 }
{
    let finished = header_word(plan, words, thread, Header::Finished);
    if is_finished(plan, words, thread) {
        finished - 1
    } else {
        finished
    }
}
