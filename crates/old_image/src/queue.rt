//! The queue of a thread in the earlier form: its slots, and how many of its events are released.

ghost use Rattle.std.specs.Prelude.{◌≡◌, ◌<◌, ◌^◌, IfSome, length};
ghost use Rattle.ink_layout.specs.Shape.{shape_of, words_of};
ghost use Rattle.image_checks.specs.Board.{board};
ghost use Rattle.old_image.specs.Told as told;

use crate::old_event::OldEvent;
use crate::old_slot::{OldSlot, read_old_slot};
use fram_words::Header;
use image_told::{header_word, slot_place, word_at};
use ink_base::{SourceId, ThreadId};
use ink_layout::Plan;

/// What the slot of a position holds, in the queue of a thread; none where it is no slot's word.
pub(crate) fn old_slot_of(
    plan: &Plan,
    words: &[u64],
    thread: ThreadId,
    position: u64,
) -> Option<OldSlot>
    requires count { length words.now ≡ words_of (shape_of plan.now.accepted) }
    requires known { thread.0 < length plan.now.accepted.threads }
    ensures { result ≡ told.old_slot_of plan.now.accepted (board plan.now.accepted words.now) thread.0 position }
{
    read_old_slot(word_at(plan, words, slot_place(plan, thread, position)))
}

// The event of a slot, where it is a full one of this position from a source of the thread.
fn old_event_in(
    plan: &Plan,
    thread: ThreadId,
    position: u64,
    slot: Option<OldSlot>,
) -> Option<OldEvent>
    ensures { result ≡ told.old_event_in plan.now.accepted thread.0 position slot }
{
    match slot {
        Some(
            OldSlot::Full {
                position: of,
                source,
                reading,
                value,
            },
        ) => {
            if of as u64 == position && feeds(plan, thread, source) {
                Some(OldEvent {
                    source,
                    reading,
                    value,
                })
            } else {
                None
            }
        }
        _ => None,
    }
}

/// Whether the source is declared, and feeds the thread.
pub(crate) fn feeds(plan: &Plan, thread: ThreadId, source: SourceId) -> bool
    ensures { result ≡ told.feeds plan.now.accepted thread.0 source.0 }
{
    match plan.program().sources.as_slice().get(source.0 as usize) {
        Some(fed) => *fed == thread,
        None => false,
    }
}

/// The event that stands at a position of a thread's queue, where the slot of the position holds one.
pub(crate) fn old_event_at(
    plan: &Plan,
    words: &[u64],
    thread: ThreadId,
    position: u64,
) -> Option<OldEvent>
    requires count { length words.now ≡ words_of (shape_of plan.now.accepted) }
    requires known { thread.0 < length plan.now.accepted.threads }
    ensures event { let memory = board plan.now.accepted words.now in
        result ≡ told.old_event_in plan.now.accepted thread.0 position (told.old_slot_of plan.now.accepted memory thread.0 position) }
    ensures small { IfSome result (λ event. position < 2 ^ 21) }
{
    old_event_in(
        plan,
        thread,
        position,
        old_slot_of(plan, words, thread, position),
    )
}

/// Whether the event that the thread finished last still stands in its slot.
pub(crate) fn is_old_finished(plan: &Plan, words: &[u64], thread: ThreadId) -> bool
    requires count { length words.now ≡ words_of (shape_of plan.now.accepted) }
    requires known { thread.0 < length plan.now.accepted.threads }
    ensures { result ≡ told.old_finished plan.now.accepted (board plan.now.accepted words.now) thread.0 }
{
    match header_word(plan, words, thread, Header::Finished).checked_sub(1) {
        Some(last) => is_full_of(last, old_slot_of(plan, words, thread, last)),
        None => false,
    }
}

// Whether it is a full slot of this position.
fn is_full_of(position: u64, slot: Option<OldSlot>) -> bool
    ensures { result ≡ told.is_old_full_of position slot }
{
    match slot {
        Some(OldSlot::Full { position: of, .. }) => of as u64 == position,
        _ => false,
    }
}

/// How many events of the thread's queue are released: those that are finished, without one that still stands in its slot.
pub(crate) fn old_released(plan: &Plan, words: &[u64], thread: ThreadId) -> u64
    requires count { length words.now ≡ words_of (shape_of plan.now.accepted) }
    requires known { thread.0 < length plan.now.accepted.threads }
    ensures { result ≡ told.old_released plan.now.accepted (board plan.now.accepted words.now) thread.0 }
{
    let finished = header_word(plan, words, thread, Header::Finished);
    if is_old_finished(plan, words, thread) {
        finished - 1
    } else {
        finished
    }
}
