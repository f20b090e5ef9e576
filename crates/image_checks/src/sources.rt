//! The sources: the seventh check of an image.

ghost use Rattle.std.specs.Prelude.{◌≡◌, ◌+◌, ◌^◌, ◌<◌, ◌↔◌, IfSome, IfNone, IsTrue, length};
ghost use Rattle.fram_words.specs.Steps.{place_of};
ghost use Rattle.prog_check.specs.Lookup.{source_thread};
ghost use Rattle.push_core.specs.Queue.{IsFinishing};
ghost use Rattle.ink_layout.specs.Slots.{slot_place as slot_at};
ghost use Rattle.ink_layout.specs.Shape.{IsOnBoard, shape_of, words_of};
ghost use Rattle.never_cut.specs.Image.{IsSourceRight, IsSrcWord, IsCountWord, IsAckWord, held_for};
ghost use Rattle.never_cut.specs.ReadOff.{told_queue, told_released};
ghost use Rattle.image_checks.specs.Failing.{SourcesHold, FindsFault, IsFirstSourceFault, IsSourceFault};
ghost use Rattle.image_checks.specs.Board.{board};
ghost use Rattle.image_checks.specs.kept.Sources.{HasCount, HasOrigin};

use fram_words::{Place, read_src};
use image_told::{
    fed, held_at, held_count, held_event, is_finished, own_before, own_events, released,
    slot_place, told_source, word_at,
};
use ink_base::{Event, Origin, SourceId};
use ink_layout::Plan;

/// The first place at which a source fails, of the first source that has one.
pub(crate) fn failing_source(plan: &Plan, words: &[u64]) -> Option<Place>
    requires { length words.now ≡ words_of (shape_of plan.now.accepted) }
    ensures none { IfNone result (SourcesHold plan.now.accepted (board plan.now.accepted words.now)) }
    ensures first { IfSome result (λ place. IsFirstSourceFault plan.now.accepted (board plan.now.accepted words.now) (place_of place)) }
    ensures there { IfSome result (λ place. IsOnBoard plan.now.accepted (place_of place)) }
{
    for i in 0..plan.program().sources.len() {
        if let Some(place) = source_fault(plan, words, SourceId(i as u8)) {
            return Some(place);
        }
    }
    None
}

// The place at which a source fails.
fn source_fault(plan: &Plan, words: &[u64], source: SourceId) -> Option<Place>
    requires count { length words.now ≡ words_of (shape_of plan.now.accepted) }
    requires known { source.0 < length plan.now.accepted.sources }
    ensures none { IfNone result (IsSourceRight plan.now.accepted (board plan.now.accepted words.now) source.0) }
    ensures fault { IfSome result (λ place. IsSourceFault plan.now.accepted (board plan.now.accepted words.now) source.0 (place_of place)) }
    ensures there { IfSome result (λ place. IsOnBoard plan.now.accepted (place_of place)) }
{
    if is_src_right(plan, words, source) {
        fault_behind_src(plan, words, source)
    } else {
        Some(Place::Src { source })
    }
}

// The place at which it fails, where its SRC is right.
fn fault_behind_src(plan: &Plan, words: &[u64], source: SourceId) -> Option<Place>
    requires count { length words.now ≡ words_of (shape_of plan.now.accepted) }
    requires known { source.0 < length plan.now.accepted.sources }
    requires src { IsSrcWord (board plan.now.accepted words.now) source.0 }
    ensures none { IfNone result (IsSourceRight plan.now.accepted (board plan.now.accepted words.now) source.0) }
    ensures fault { IfSome result (λ place. IsSourceFault plan.now.accepted (board plan.now.accepted words.now) source.0 (place_of place)) }
    ensures there { IfSome result (λ place. IsOnBoard plan.now.accepted (place_of place)) }
{
    match failing_count(plan, words, source) {
        Some(j) => Some(held_place(plan, words, source, j)),
        None => {
            if is_ack_right(plan, words, source) {
                None
            } else {
                Some(Place::Ack { source })
            }
        }
    }
}

// No more readings are accepted than settled.
fn is_src_right(plan: &Plan, words: &[u64], source: SourceId) -> bool
    requires count { length words.now ≡ words_of (shape_of plan.now.accepted) }
    requires known { source.0 < length plan.now.accepted.sources }
    ensures { IsTrue result ↔ IsSrcWord (board plan.now.accepted words.now) source.0 }
{
    let src = read_src(word_at(plan, words, Place::Src { source }));
    src.accepted <= src.next
}

// The first of the held events of the source's queue whose count isn't right.
fn failing_count(plan: &Plan, words: &[u64], source: SourceId) -> Option<u32>
    requires count { length words.now ≡ words_of (shape_of plan.now.accepted) }
    requires known { source.0 < length plan.now.accepted.sources }
    ensures { let memory = board plan.now.accepted words.now in
        FindsFault (IsCountWord plan.now.accepted memory source.0) (length (held_for plan.now.accepted memory source.0)) result }
{
    for j in 0..held_count(plan, words, fed(plan, source)) {
        if !is_count_right(plan, words, source, j) {
            return Some(j);
        }
    }
    None
}

// Whether a held event isn't of the source, or has the count of its place among the source's own.
fn is_count_right(plan: &Plan, words: &[u64], source: SourceId, j: u32) -> bool
    requires count { length words.now ≡ words_of (shape_of plan.now.accepted) }
    requires known { source.0 < length plan.now.accepted.sources }
    requires held { j < length (held_for plan.now.accepted (board plan.now.accepted words.now) source.0) }
    ensures { IsTrue result ↔ IsCountWord plan.now.accepted (board plan.now.accepted words.now) source.0 j }
{
    let accepted = told_source(plan, words, source).accepted;
    let own = own_events(plan, words, source) as u64;
    let before = own_before(plan, words, source, j) as u64;
    has_count(
        source,
        held_at(plan, words, fed(plan, source), j),
        accepted,
        own,
        before,
    )
}

// Whether an event isn't of the source, or is its event behind so many of those that it holds, of so many accepted ones.
fn has_count(source: SourceId, event: Event, accepted: u64, own: u64, before: u64) -> bool
    requires { accepted + before < 2 ^ 64 }
    ensures { IsTrue result ↔ HasCount source.0 event accepted own before }
{
    match event.origin {
        Origin::Source { source: of, count } => {
            of != source || (own <= accepted && count as u64 == (accepted - own + before) % 64)
        }
        _ => true,
    }
}

// The ACK is the accepted number without those that are held, or one more where the first of them is finished.
fn is_ack_right(plan: &Plan, words: &[u64], source: SourceId) -> bool
    requires count { length words.now ≡ words_of (shape_of plan.now.accepted) }
    requires known { source.0 < length plan.now.accepted.sources }
    ensures { IsTrue result ↔ IsAckWord plan.now.accepted (board plan.now.accepted words.now) source.0 }
{
    let ack = word_at(plan, words, Place::Ack { source });
    let own = own_events(plan, words, source) as u64;
    let gone = told_source(plan, words, source)
        .accepted
        .saturating_sub(own);
    let count = (gone % 64) as u8;
    ack == count as u64 || (ack == (gone + 1) % 64 && is_finishing(plan, words, source, count))
}

// The first event of the source's queue is the source's with this count, and it is finished.
fn is_finishing(plan: &Plan, words: &[u64], source: SourceId, count: u8) -> bool
    requires count { length words.now ≡ words_of (shape_of plan.now.accepted) }
    requires known { source.0 < length plan.now.accepted.sources }
    ensures { let program = plan.now.accepted in
        IsTrue result ↔ IsFinishing source.0 count (told_queue program (board program words.now) (source_thread program source.0)) }
{
    let thread = fed(plan, source);
    let origin = Origin::Source { source, count };
    is_finished(plan, words, thread) && has_origin(held_event(plan, words, thread, 0), origin)
}

// Whether there is an event, of this origin.
fn has_origin(found: Option<Event>, origin: Origin) -> bool
    ensures { IsTrue result ↔ HasOrigin origin found }
{
    match found {
        Some(event) => event.origin == origin,
        None => false,
    }
}

// The slot of a held event of the source's queue.
fn held_place(plan: &Plan, words: &[u64], source: SourceId, j: u32) -> Place
    requires count { length words.now ≡ words_of (shape_of plan.now.accepted) }
    requires known { source.0 < length plan.now.accepted.sources }
    requires held { j < length (held_for plan.now.accepted (board plan.now.accepted words.now) source.0) }
    ensures place { let thread = source_thread plan.now.accepted source.0 in
        place_of result ≡ slot_at plan.now.accepted thread (told_released plan.now.accepted (board plan.now.accepted words.now) thread + j) }
    ensures there { IsOnBoard plan.now.accepted (place_of result) }
{
    let thread = fed(plan, source);
    let first = released(plan, words, thread);
    slot_place(plan, thread, first + j as u64)
}
