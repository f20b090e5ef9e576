//! The queues of threads in the earlier form: the sixth check.

ghost use Rattle.std.specs.Prelude.{◌≡◌, ◌<◌, ◌↔◌, IfSome, IfNone, IsTrue, length};
ghost use Rattle.fram_words.specs.Steps.{place_of};
ghost use Rattle.ink_layout.specs.Shape.{IsOnBoard, shape_of, words_of};
ghost use Rattle.image_checks.specs.Board.{board};
ghost use Rattle.image_checks.specs.Failing.{block_place as place_in_block};
ghost use Rattle.fram_words.specs.Header.{word_of, IsHeader};
ghost use Rattle.old_image.specs.Image.{IsOldQueueRight, IsOldTailWord, IsOldOnlyFinished, IsOldIdleFinished, IsOldFirstServed, IsOldServed};
ghost use Rattle.old_image.specs.Failing.{AreOldSlots, OldQueuesHold, IsOldQueueFault, IsFirstOldQueueFault};
ghost use Rattle.old_image.specs.kept.Parts.{AreUnfinishedBefore, FindsSlot, IsFree, IsWordOf};

use crate::held::{old_held_count, old_held_event, old_published};
use crate::old_event::OldEvent;
use crate::old_slot::OldSlot;
use crate::origins::{has_source_chain, old_origin_word};
use crate::queue::{is_old_finished, old_released, old_slot_of};
use fram_words::{Header, Place};
use image_told::{header_word, places, slot_place, word_at};
use ink_base::ThreadId;
use ink_layout::Plan;
use thread_state::header_in;

/// The first place at which a thread's queue fails, of the first thread that has one.
pub(crate) fn failing_old_queue(plan: &Plan, words: &[u64]) -> Option<Place>
    requires { length words.now ≡ words_of (shape_of plan.now.accepted) }
    ensures none { IfNone result (OldQueuesHold plan.now.accepted (board plan.now.accepted words.now)) }
    ensures first { IfSome result (λ place. IsFirstOldQueueFault plan.now.accepted (board plan.now.accepted words.now) (place_of place)) }
    ensures there { IfSome result (λ place. IsOnBoard plan.now.accepted (place_of place)) }
{
    for t in 0..plan.program().threads.len() {
        if let Some(place) = queue_fault(plan, words, ThreadId(t as u8)) {
            return Some(place);
        }
    }
    None
}

// The place at which the queue of a thread fails.
fn queue_fault(plan: &Plan, words: &[u64], thread: ThreadId) -> Option<Place>
    requires count { length words.now ≡ words_of (shape_of plan.now.accepted) }
    requires known { thread.0 < length plan.now.accepted.threads }
    ensures none { IfNone result (IsOldQueueRight plan.now.accepted (board plan.now.accepted words.now) thread.0) }
    ensures fault { IfSome result (λ place. IsOldQueueFault plan.now.accepted (board plan.now.accepted words.now) thread.0 (place_of place)) }
    ensures there { IfSome result (λ place. IsOnBoard plan.now.accepted (place_of place)) }
{
    match failing_slot(plan, words, thread) {
        Some(position) => Some(slot_place(plan, thread, position)),
        None => fault_behind_slots(plan, words, thread),
    }
}

// The place at which it fails, where its slots are right.
fn fault_behind_slots(plan: &Plan, words: &[u64], thread: ThreadId) -> Option<Place>
    requires count { length words.now ≡ words_of (shape_of plan.now.accepted) }
    requires known { thread.0 < length plan.now.accepted.threads }
    requires slots { AreOldSlots plan.now.accepted (board plan.now.accepted words.now) thread.0 }
    ensures none { IfNone result (IsOldQueueRight plan.now.accepted (board plan.now.accepted words.now) thread.0) }
    ensures fault { IfSome result (λ place. IsOldQueueFault plan.now.accepted (board plan.now.accepted words.now) thread.0 (place_of place)) }
    ensures there { IfSome result (λ place. IsOnBoard plan.now.accepted (place_of place)) }
{
    if !is_tail_right(plan, words, thread) {
        return Some(Place::Tail { thread });
    }
    if !is_only_finished(plan, words, thread) {
        return Some(header_place(plan, words, thread, Header::Finished));
    }
    if !is_idle_finished(plan, words, thread) {
        return Some(header_place(plan, words, thread, Header::Next));
    }
    if !is_first_served(plan, words, thread) {
        return Some(header_place(plan, words, thread, Header::Origin));
    }
    None
}

// The first position behind the held events whose slot isn't free for it.
fn failing_slot(plan: &Plan, words: &[u64], thread: ThreadId) -> Option<u64>
    requires count { length words.now ≡ words_of (shape_of plan.now.accepted) }
    requires known { thread.0 < length plan.now.accepted.threads }
    ensures { FindsSlot plan.now.accepted (board plan.now.accepted words.now) thread.0 result }
{
    let places = places(plan, thread);
    let first = old_released(plan, words, thread);
    for k in old_held_count(plan, words, thread)..places as u32 {
        let position = first + k as u64;
        if !is_free(plan, words, thread, position) {
            return Some(position);
        }
    }
    None
}

// Whether the slot of a position has the empty word of the position, which fits its bits.
fn is_free(plan: &Plan, words: &[u64], thread: ThreadId, position: u64) -> bool
    requires count { length words.now ≡ words_of (shape_of plan.now.accepted) }
    requires known { thread.0 < length plan.now.accepted.threads }
    ensures { IsTrue result ↔ IsFree plan.now.accepted (board plan.now.accepted words.now) thread.0 position }
{
    match old_slot_of(plan, words, thread, position) {
        Some(OldSlot::Empty { position: of }) => of as u64 == position,
        _ => false,
    }
}

// The tail is the number of published events, or one behind.
fn is_tail_right(plan: &Plan, words: &[u64], thread: ThreadId) -> bool
    requires count { length words.now ≡ words_of (shape_of plan.now.accepted) }
    requires known { thread.0 < length plan.now.accepted.threads }
    ensures { IsTrue result ↔ IsOldTailWord plan.now.accepted (board plan.now.accepted words.now) thread.0 }
{
    let tail = word_at(plan, words, Place::Tail { thread }) as u128;
    let all = old_published(plan, words, thread);
    tail == all || tail + 1 == all
}

// No earlier thread has a finished event beside this one's.
fn is_only_finished(plan: &Plan, words: &[u64], thread: ThreadId) -> bool
    requires count { length words.now ≡ words_of (shape_of plan.now.accepted) }
    requires known { thread.0 < length plan.now.accepted.threads }
    ensures { IsTrue result ↔ IsOldOnlyFinished plan.now.accepted (board plan.now.accepted words.now) thread.0 }
{
    !is_old_finished(plan, words, thread) || are_unfinished_before(plan, words, thread)
}

// No earlier thread has a finished event.
fn are_unfinished_before(plan: &Plan, words: &[u64], thread: ThreadId) -> bool
    requires count { length words.now ≡ words_of (shape_of plan.now.accepted) }
    requires known { thread.0 < length plan.now.accepted.threads }
    ensures { IsTrue result ↔ AreUnfinishedBefore plan.now.accepted (board plan.now.accepted words.now) thread.0 }
{
    for u in 0..thread.0 {
        if is_old_finished(plan, words, ThreadId(u)) {
            return false;
        }
    }
    true
}

// A thread with a finished event is idle.
fn is_idle_finished(plan: &Plan, words: &[u64], thread: ThreadId) -> bool
    requires count { length words.now ≡ words_of (shape_of plan.now.accepted) }
    requires known { thread.0 < length plan.now.accepted.threads }
    ensures { IsTrue result ↔ IsOldIdleFinished plan.now.accepted (board plan.now.accepted words.now) thread.0 }
{
    !is_old_finished(plan, words, thread) || header_word(plan, words, thread, Header::Next) == 0
}

// A running chain of a source's event has the first held one.
fn is_first_served(plan: &Plan, words: &[u64], thread: ThreadId) -> bool
    requires count { length words.now ≡ words_of (shape_of plan.now.accepted) }
    requires known { thread.0 < length plan.now.accepted.threads }
    ensures { IsTrue result ↔ IsOldFirstServed plan.now.accepted (board plan.now.accepted words.now) thread.0 }
{
    !has_source_chain(plan, words, thread) || serves_first(plan, words, thread)
}

// The origin and the value are those of the first held event.
fn serves_first(plan: &Plan, words: &[u64], thread: ThreadId) -> bool
    requires count { length words.now ≡ words_of (shape_of plan.now.accepted) }
    requires known { thread.0 < length plan.now.accepted.threads }
    ensures { IsTrue result ↔ IsOldServed plan.now.accepted (board plan.now.accepted words.now) thread.0 }
{
    let origin = header_word(plan, words, thread, Header::Origin);
    let value = header_word(plan, words, thread, Header::Value);
    old_held_count(plan, words, thread) > 0
        && is_word_of(old_held_event(plan, words, thread, 0), origin, value)
}

// Whether the words are those of the event's origin and value.
fn is_word_of(event: OldEvent, origin: u64, value: u64) -> bool
    ensures { IsTrue result ↔ IsWordOf event origin value }
{
    origin == old_origin_word(event) && value == event.value as u64
}

/// A word of a thread's header, in the committed copy.
pub(crate) fn header_place(plan: &Plan, words: &[u64], thread: ThreadId, header: Header) -> Place
    requires count { length words.now ≡ words_of (shape_of plan.now.accepted) }
    requires known { thread.0 < length plan.now.accepted.threads }
    requires header { IsHeader header }
    ensures place { place_of result ≡ place_in_block (board plan.now.accepted words.now) thread.0 (word_of header) }
    ensures there { IsOnBoard plan.now.accepted (place_of result) }
{
    header_in(
        thread,
        word_at(plan, words, Place::Commit { thread }),
        header,
    )
}
