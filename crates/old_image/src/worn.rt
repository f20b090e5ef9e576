//! Whether an image of the earlier form is worn.

ghost use Rattle.std.specs.Prelude.{◌≡◌, ◌+◌, ◌≤◌, ◌<◌, ◌↔◌, ℕ, nat_lt, List, length, slice_index, IsTrue};
ghost use Rattle.std.specs.Bool.{MatchBool};
ghost use Rattle.ink_base.specs.declared.limits.TheConstants as limits;
ghost use Rattle.push_core.specs.Table.{greatest_tail};
ghost use Rattle.ink_layout.specs.Shape.{shape_of, words_of};
ghost use Rattle.never_cut.specs.Worn as worn;
ghost use Rattle.image_checks.specs.Board.{board};
ghost use Rattle.old_image.specs.Told as told;
ghost use Rattle.old_image.specs.Worn.{IsOldWorn};
ghost use Rattle.old_image.specs.kept.Unworn.{IsUnwornSource, IsUnwornThread, IsUnwornPipe};

use crate::held::{old_next, old_published};
use fram_words::{Header, Place};
use image_told::{header_word, taken, word_at, written};
use ink_base::{PipeId, SourceId, ThreadId, limits};
use ink_layout::Plan;

// Half the range of a count or a stamp.
const HALF_COUNT: u64 = 1 << 31;

// Half the way of the clock.
const HALF_CLOCK: u64 = 1 << 46;

// The most events that a queue publishes: all readings of all sources.
const GREATEST_TAIL: u128 = (limits::SOURCES * limits::READINGS) as u128;

/// Whether words of the earlier form are worn with so many readings listed for each source: a source has no numbers left for all of
/// them, or a queue no positions; or the clock, a stamp, a count of services or a count of a pipe's items is at half its range or beyond.
pub fn is_worn_old(plan: &Plan, listed: &[u32], words: &[u64]) -> bool
    requires count { length words.now ≡ words_of (shape_of plan.now.accepted) }
    requires listed { length listed.now ≡ length plan.now.accepted.sources }
    ensures { IsTrue result ↔ IsOldWorn plan.now.accepted listed.now (board plan.now.accepted words.now) }
{
    if word_at(plan, words, Place::Clock) >= HALF_CLOCK {
        return true;
    }
    if has_worn_source(plan, listed, words) {
        return true;
    }
    if has_worn_thread(plan, listed, words) {
        return true;
    }
    has_worn_pipe(plan, words)
}

// Whether some source has no numbers left for all readings that are listed for it.
fn has_worn_source(plan: &Plan, listed: &[u32], words: &[u64]) -> bool
    requires count { length words.now ≡ words_of (shape_of plan.now.accepted) }
    requires listed { length listed.now ≡ length plan.now.accepted.sources }
    ensures { let memory = board plan.now.accepted words.now in
        MatchBool result (IsOldWorn plan.now.accepted listed.now memory)
        ((i : ℕ) → i < length plan.now.accepted.sources → IsUnwornSource plan.now.accepted listed.now memory i) }
{
    for i in 0..plan.program().sources.len() {
        if is_worn_source(plan, listed, words, SourceId(i as u8)) {
            return true;
        }
    }
    false
}

fn is_worn_source(plan: &Plan, listed: &[u32], words: &[u64], source: SourceId) -> bool
    requires count { length words.now ≡ words_of (shape_of plan.now.accepted) }
    requires listed { length listed.now ≡ length plan.now.accepted.sources }
    requires known { source.0 < length plan.now.accepted.sources }
    ensures { let memory = board plan.now.accepted words.now in
        result ≡ nat_lt limits.READINGS (told.old_next plan.now.accepted memory source.0 + slice_index listed.now source.0) }
{
    let next = old_next(plan, words, source) as u128;
    let coming = listed[source.0 as usize] as u128;
    next + coming > limits::READINGS as u128
}

// Whether some thread is worn: its numbers, or its queue.
fn has_worn_thread(plan: &Plan, listed: &[u32], words: &[u64]) -> bool
    requires count { length words.now ≡ words_of (shape_of plan.now.accepted) }
    requires listed { length listed.now ≡ length plan.now.accepted.sources }
    ensures { let memory = board plan.now.accepted words.now in
        MatchBool result (IsOldWorn plan.now.accepted listed.now memory)
        ((t : ℕ) → t < length plan.now.accepted.threads → IsUnwornThread plan.now.accepted listed.now memory t) }
{
    for t in 0..plan.program().threads.len() {
        if is_worn_thread(plan, listed, words, ThreadId(t as u8)) {
            return true;
        }
    }
    false
}

fn is_worn_thread(plan: &Plan, listed: &[u32], words: &[u64], thread: ThreadId) -> bool
    requires count { length words.now ≡ words_of (shape_of plan.now.accepted) }
    requires listed { length listed.now ≡ length plan.now.accepted.sources }
    requires known { thread.0 < length plan.now.accepted.threads }
    ensures { let memory = board plan.now.accepted words.now in
        MatchBool result (IsOldWorn plan.now.accepted listed.now memory) (IsUnwornThread plan.now.accepted listed.now memory thread.0) }
{
    let stamp = header_word(plan, words, thread, Header::Stamp);
    let served = header_word(plan, words, thread, Header::Served);
    let trapped = header_word(plan, words, thread, Header::Trapped);
    let expired = header_word(plan, words, thread, Header::Expired);
    if stamp >= HALF_COUNT {
        return true;
    }
    if served >= HALF_COUNT {
        return true;
    }
    if trapped >= HALF_COUNT {
        return true;
    }
    if expired >= HALF_COUNT {
        return true;
    }
    is_worn_queue(plan, listed, words, thread)
}

// Whether the queue of a thread has no positions left for all readings that are listed for its sources.
fn is_worn_queue(plan: &Plan, listed: &[u32], words: &[u64], thread: ThreadId) -> bool
    requires count { length words.now ≡ words_of (shape_of plan.now.accepted) }
    requires listed { length listed.now ≡ length plan.now.accepted.sources }
    requires known { thread.0 < length plan.now.accepted.threads }
    ensures { let memory = board plan.now.accepted words.now in
        result ≡ nat_lt greatest_tail (told.old_published plan.now.accepted memory thread.0
        + worn.listed_into plan.now.accepted listed.now thread.0 (length plan.now.accepted.sources)) }
{
    let coming = listed_into(plan, listed, thread) as u128;
    old_published(plan, words, thread) + coming > GREATEST_TAIL
}

// How many readings are listed for the sources of a thread.
fn listed_into(plan: &Plan, listed: &[u32], thread: ThreadId) -> u64
    requires { length listed.now ≡ length plan.now.accepted.sources }
    ensures { result ≡ worn.listed_into plan.now.accepted listed.now thread.0 (length plan.now.accepted.sources) }
{
    let sources = plan.program().sources.as_slice();
    let mut sum = 0;
    for i in 0..sources.len() {
        if sources[i] == thread {
            sum += listed[i] as u64;
        }
    }
    sum
}

// Whether some pipe is worn.
fn has_worn_pipe(plan: &Plan, words: &[u64]) -> bool
    requires { length words.now ≡ words_of (shape_of plan.now.accepted) }
    ensures { let memory = board plan.now.accepted words.now in
        MatchBool result ((listed : List ℕ) → IsOldWorn plan.now.accepted listed memory)
        ((q : ℕ) → q < length plan.now.accepted.pipes → IsUnwornPipe plan.now.accepted memory q) }
{
    for q in 0..plan.program().pipes.len() {
        if is_worn_pipe(plan, words, PipeId(q as u8)) {
            return true;
        }
    }
    false
}

fn is_worn_pipe(plan: &Plan, words: &[u64], pipe: PipeId) -> bool
    requires count { length words.now ≡ words_of (shape_of plan.now.accepted) }
    requires known { pipe.0 < length plan.now.accepted.pipes }
    ensures { let memory = board plan.now.accepted words.now in
        MatchBool result ((listed : List ℕ) → IsOldWorn plan.now.accepted listed memory) (IsUnwornPipe plan.now.accepted memory pipe.0) }
{
    written(plan, words, pipe) >= HALF_COUNT || taken(plan, words, pipe) >= HALF_COUNT
}
