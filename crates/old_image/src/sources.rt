//! The sources in the earlier form: the seventh check.

ghost use Rattle.std.specs.Prelude.{◌≡◌, ◌+◌, ◌<◌, ◌≤◌, ◌↔◌, IfSome, IfNone, IsTrue, length};
ghost use Rattle.fram_words.specs.Steps.{place_of};
ghost use Rattle.ink_layout.specs.Shape.{IsOnBoard, shape_of, words_of};
ghost use Rattle.image_checks.specs.Board.{board};
ghost use Rattle.image_checks.specs.Failing.{FindsFault};
ghost use Rattle.old_image.specs.Told as told;
ghost use Rattle.old_image.specs.Image.{IsOldAckWord, IsOldSourceRight, IsRisingReading};
ghost use Rattle.old_image.specs.Failing.{OldSourcesHold, IsOldSourceFault, IsFirstOldSourceFault};
ghost use Rattle.prog_check.specs.Lookup.{source_thread};
ghost use Rattle.old_image.specs.Renewed.{place_behind};
ghost use Rattle.old_image.specs.kept.Parts.{ComesAfter, FindsOwn, IsAckBefore};

use crate::held::{after_first, count_for, event_for, is_of};
use crate::old_event::OldEvent;
use crate::queue::{is_old_finished, old_released};
use fram_words::Place;
use image_told::{fed, slot_place, word_at};
use ink_base::SourceId;
use ink_layout::Plan;

/// The first place at which a source fails, of the first source that has one.
pub(crate) fn failing_old_source(plan: &Plan, words: &[u64]) -> Option<Place>
    requires { length words.now ≡ words_of (shape_of plan.now.accepted) }
    ensures none { IfNone result (OldSourcesHold plan.now.accepted (board plan.now.accepted words.now)) }
    ensures first { IfSome result (λ place. IsFirstOldSourceFault plan.now.accepted (board plan.now.accepted words.now) (place_of place)) }
    ensures there { IfSome result (λ place. IsOnBoard plan.now.accepted (place_of place)) }
{
    for i in 0..plan.program().sources.len() {
        if let Some(place) = source_fault(plan, words, SourceId(i as u8)) {
            return Some(place);
        }
    }
    None
}

// The place at which a source fails.
fn source_fault(plan: &Plan, words: &[u64], source: SourceId) -> Option<Place>
    requires count { length words.now ≡ words_of (shape_of plan.now.accepted) }
    requires known { source.0 < length plan.now.accepted.sources }
    ensures none { IfNone result (IsOldSourceRight plan.now.accepted (board plan.now.accepted words.now) source.0) }
    ensures fault { IfSome result (λ place. IsOldSourceFault plan.now.accepted (board plan.now.accepted words.now) source.0 (place_of place)) }
    ensures there { IfSome result (λ place. IsOnBoard plan.now.accepted (place_of place)) }
{
    match failing_reading(plan, words, source) {
        Some(place) => Some(held_slot(plan, words, source, place)),
        None => {
            if is_ack_right(plan, words, source) {
                None
            } else {
                Some(Place::Ack { source })
            }
        }
    }
}

// The first of the held events of the source's queue whose reading doesn't come after those of the source before it.
fn failing_reading(plan: &Plan, words: &[u64], source: SourceId) -> Option<u32>
    requires count { length words.now ≡ words_of (shape_of plan.now.accepted) }
    requires known { source.0 < length plan.now.accepted.sources }
    ensures { let memory = board plan.now.accepted words.now in
        FindsFault (IsRisingReading plan.now.accepted memory source.0) (length (told.old_held_for plan.now.accepted memory source.0)) result }
{
    for place in 0..count_for(plan, words, source) {
        if !rises(plan, words, source, place) {
            return Some(place);
        }
    }
    None
}

// Whether a held event isn't of the source, or its reading comes after those of the source before it.
fn rises(plan: &Plan, words: &[u64], source: SourceId, place: u32) -> bool
    requires count { length words.now ≡ words_of (shape_of plan.now.accepted) }
    requires known { source.0 < length plan.now.accepted.sources }
    requires held { place < length (told.old_held_for plan.now.accepted (board plan.now.accepted words.now) source.0) }
    ensures { IsTrue result ↔ IsRisingReading plan.now.accepted (board plan.now.accepted words.now) source.0 place }
{
    let after = after_first(plan, words, source, place);
    comes_after(source, event_for(plan, words, source, place), after)
}

// Whether an event isn't of the source, or its reading isn't before this one.
fn comes_after(source: SourceId, event: OldEvent, after: u32) -> bool
    ensures { IsTrue result ↔ ComesAfter source.0 event after }
{
    event.source != source || after <= event.reading as u32
}

// ACK is at most the number of the source's first held reading, or one more where that event is finished.
fn is_ack_right(plan: &Plan, words: &[u64], source: SourceId) -> bool
    requires count { length words.now ≡ words_of (shape_of plan.now.accepted) }
    requires known { source.0 < length plan.now.accepted.sources }
    ensures { IsTrue result ↔ IsOldAckWord plan.now.accepted (board plan.now.accepted words.now) source.0 }
{
    match first_own(plan, words, source) {
        Some(place) => is_ack_for(plan, words, source, place),
        None => true,
    }
}

// The place of the source's first held event.
fn first_own(plan: &Plan, words: &[u64], source: SourceId) -> Option<u32>
    requires count { length words.now ≡ words_of (shape_of plan.now.accepted) }
    requires known { source.0 < length plan.now.accepted.sources }
    ensures { FindsOwn source.0 (told.old_held_for plan.now.accepted (board plan.now.accepted words.now) source.0) result }
{
    for place in 0..count_for(plan, words, source) {
        if is_of(source, event_for(plan, words, source, place)) {
            return Some(place);
        }
    }
    None
}

// Whether ACK is right where the source's first held event stands at this place.
fn is_ack_for(plan: &Plan, words: &[u64], source: SourceId, place: u32) -> bool
    requires count { length words.now ≡ words_of (shape_of plan.now.accepted) }
    requires known { source.0 < length plan.now.accepted.sources }
    requires held { place < length (told.old_held_for plan.now.accepted (board plan.now.accepted words.now) source.0) }
    ensures { IsTrue result ↔ IsAckBefore plan.now.accepted (board plan.now.accepted words.now) source.0 place }
{
    let reading = event_for(plan, words, source, place).reading as u64;
    let is_finished = is_old_finished(plan, words, fed(plan, source)) && place == 0;
    word_at(plan, words, Place::Ack { source }) <= reading + is_finished as u64
}

// The slot of a held event of the source's queue.
fn held_slot(plan: &Plan, words: &[u64], source: SourceId, place: u32) -> Place
    requires count { length words.now ≡ words_of (shape_of plan.now.accepted) }
    requires known { source.0 < length plan.now.accepted.sources }
    requires held { place < length (told.old_held_for plan.now.accepted (board plan.now.accepted words.now) source.0) }
    ensures place { place_of result ≡ place_behind plan.now.accepted (board plan.now.accepted words.now) (source_thread plan.now.accepted source.0) place }
    ensures there { IsOnBoard plan.now.accepted (place_of result) }
{
    let thread = fed(plan, source);
    let first = old_released(plan, words, thread);
    slot_place(plan, thread, first + place as u64)
}
