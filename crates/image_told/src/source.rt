//! The sources.

ghost use Rattle.std.specs.Prelude.{◌≡◌, ◌<◌, ◌≤◌, ◌^◌, length};
ghost use Rattle.std.specs.List.{list_any};
ghost use Rattle.fram_words.specs.Shape.{memory_of};
ghost use Rattle.ink_layout.specs.Shape.{shape_of, words_of};
ghost use Rattle.never_cut.specs.Image.{held_for};
ghost use Rattle.never_cut.specs.ReadOff as told;

use crate::events::{held_at, held_count};
use crate::queue::fed;
use crate::words::word_at;
use fram_words::{Place, read_src};
use ink_base::{Event, Origin, SourceId};
use ink_layout::Plan;

/// How many of a source's readings are settled, which is the number of the next one, and how many of them are accepted.
#[derive(Clone, Copy, Debug, PartialEq, Eq)]
pub struct ToldSource {
    pub next: u64,
    pub accepted: u64,
}

/// Whether the source has settled one more reading than its SRC says: its event is held, or its ACK counts it.
pub fn is_one_more(plan: &Plan, words: &[u64], source: SourceId) -> bool
    requires count { length words.now ≡ words_of (shape_of plan.now.accepted) }
    requires known { source.0 < length plan.now.accepted.sources }
    ensures { result ≡ told.is_one_more plan.now.accepted (memory_of (shape_of plan.now.accepted) words.now) source.0 }
{
    let accepted = read_src(word_at(plan, words, Place::Src { source })).accepted;
    holds_number(plan, words, source, accepted)
        || word_at(plan, words, Place::Ack { source }) == (accepted as u64 + 1) % 64
}

// Whether an event of the source with this number is held, in the queue of the thread that it feeds.
fn holds_number(plan: &Plan, words: &[u64], source: SourceId, number: u32) -> bool
    requires count { length words.now ≡ words_of (shape_of plan.now.accepted) }
    requires known { source.0 < length plan.now.accepted.sources }
    ensures { let memory = memory_of (shape_of plan.now.accepted) words.now in
        result ≡ list_any (told.has_number source.0 number) (held_for plan.now.accepted memory source.0) }
{
    let thread = fed(plan, source);
    for k in 0..held_count(plan, words, thread) {
        if has_number(source, number, held_at(plan, words, thread, k)) {
            return true;
        }
    }
    false
}

// Whether the event is the one of the source with this number.
fn has_number(source: SourceId, number: u32, event: Event) -> bool
    ensures { result ≡ told.has_number source.0 number event }
{
    match event.origin {
        Origin::Source { source: of, count } => of == source && count as u32 == number % 64,
        _ => false,
    }
}

/// How many of the source's readings are accepted and settled: as many as its SRC says, or one more.
pub fn told_source(plan: &Plan, words: &[u64], source: SourceId) -> ToldSource
    requires count { length words.now ≡ words_of (shape_of plan.now.accepted) }
    requires known { source.0 < length plan.now.accepted.sources }
    ensures next { let memory = memory_of (shape_of plan.now.accepted) words.now in
        result.next ≡ (told.told_source plan.now.accepted memory source.0).next }
    ensures accepted { let memory = memory_of (shape_of plan.now.accepted) words.now in
        result.accepted ≡ (told.told_source plan.now.accepted memory source.0).accepted }
    ensures fits { (result.next ≤ 2 ^ 32) × (result.accepted ≤ 2 ^ 32) }
{
    let src = read_src(word_at(plan, words, Place::Src { source }));
    let more = is_one_more(plan, words, source) as u64;
    ToldSource {
        next: src.next as u64 + more,
        accepted: src.accepted as u64 + more,
    }
}
