//! Whether an image is worn.

ghost use Rattle.std.specs.Prelude.{◌≡◌, ◌<◌, ◌↔◌, length, IsTrue};
ghost use Rattle.ink_layout.specs.Shape.{shape_of, words_of};
ghost use Rattle.fram_words.specs.Header.{IsHeader, word_of};
ghost use Rattle.thread_state.specs.Pages.{committed};
ghost use Rattle.never_cut.specs.Worn.{IsWorn};
ghost use Rattle.never_cut.specs.Worn as worn;
ghost use Rattle.image_state.specs.Words.{by_place};
ghost use Rattle.image_state.specs.kept.Wear as wear;

use fram_words::{Header, Place};
use image_told::{header_word, published, taken, told_source, word_at, written};
use ink_base::{PipeId, SourceId, ThreadId, limits};
use ink_layout::Plan;

// Half the range of a count or a stamp.
const HALF_COUNT: u64 = 1 << 31;

// Half the way of the clock.
const HALF_CLOCK: u64 = 1 << 46;

// The most events that a queue publishes: all readings of all sources.
const GREATEST_TAIL: u128 = (limits::SOURCES * limits::READINGS) as u128;

/// Whether the words of a board of the program are worn with so many readings listed for each source: a source has no numbers left for
/// all of them, or a queue no positions; or the clock, a stamp, a count of services or a count of a pipe's items has half of its range
/// behind it.
pub fn is_worn(plan: &Plan, listed: &[u32], words: &[u64]) -> bool
    requires count { length words.now ≡ words_of (shape_of plan.now.accepted) }
    requires listed { length listed.now ≡ length plan.now.accepted.sources }
    ensures { IsTrue result ↔ IsWorn plan.now.accepted listed.now (by_place plan.now.accepted words.now) }
{
    wears(plan, listed, words)
}

fn wears(plan: &Plan, listed: &[u32], words: &[u64]) -> bool
    requires count { length words.now ≡ words_of (shape_of plan.now.accepted) }
    requires listed { length listed.now ≡ length plan.now.accepted.sources }
    ensures { result ≡ wear.wears plan.now.accepted listed.now (by_place plan.now.accepted words.now) }
{
    word_at(plan, words, Place::Clock) >= HALF_CLOCK
        || wears_sources(plan, listed, words)
        || wears_threads(plan, listed, words)
        || wears_pipes(plan, words)
}

// Whether one of the sources is worn.
fn wears_sources(plan: &Plan, listed: &[u32], words: &[u64]) -> bool
    requires count { length words.now ≡ words_of (shape_of plan.now.accepted) }
    requires listed { length listed.now ≡ length plan.now.accepted.sources }
    ensures { let test = wear.wears_source plan.now.accepted listed.now (by_place plan.now.accepted words.now) in
        result ≡ wear.any_below test (length plan.now.accepted.sources) }
{
    for i in 0..plan.program().sources.len() {
        if wears_source(plan, listed, words, SourceId(i as u8)) {
            return true;
        }
    }
    false
}

// Whether a source has no numbers left for all readings that are listed for it.
fn wears_source(plan: &Plan, listed: &[u32], words: &[u64], source: SourceId) -> bool
    requires count { length words.now ≡ words_of (shape_of plan.now.accepted) }
    requires listed { length listed.now ≡ length plan.now.accepted.sources }
    requires known { source.0 < length plan.now.accepted.sources }
    ensures { result ≡ wear.wears_source plan.now.accepted listed.now (by_place plan.now.accepted words.now) source.0 }
{
    let next = told_source(plan, words, source).next;
    next + listed[source.0 as usize] as u64 > limits::READINGS as u64
}

// Whether one of the threads is worn.
fn wears_threads(plan: &Plan, listed: &[u32], words: &[u64]) -> bool
    requires count { length words.now ≡ words_of (shape_of plan.now.accepted) }
    requires listed { length listed.now ≡ length plan.now.accepted.sources }
    ensures { let test = wear.wears_thread plan.now.accepted listed.now (by_place plan.now.accepted words.now) in
        result ≡ wear.any_below test (length plan.now.accepted.threads) }
{
    for t in 0..plan.program().threads.len() {
        if wears_thread(plan, listed, words, ThreadId(t as u8)) {
            return true;
        }
    }
    false
}

// Whether the stamp of a thread or a count of its services is high, or its queue is worn.
fn wears_thread(plan: &Plan, listed: &[u32], words: &[u64], thread: ThreadId) -> bool
    requires count { length words.now ≡ words_of (shape_of plan.now.accepted) }
    requires listed { length listed.now ≡ length plan.now.accepted.sources }
    requires known { thread.0 < length plan.now.accepted.threads }
    ensures { result ≡ wear.wears_thread plan.now.accepted listed.now (by_place plan.now.accepted words.now) thread.0 }
{
    is_high(plan, words, thread, Header::Stamp)
        || is_high(plan, words, thread, Header::Served)
        || is_high(plan, words, thread, Header::Trapped)
        || is_high(plan, words, thread, Header::Expired)
        || wears_queue(plan, listed, words, thread)
}

// Whether a count of a thread's header has half of its range behind it.
fn is_high(plan: &Plan, words: &[u64], thread: ThreadId, header: Header) -> bool
    requires count { length words.now ≡ words_of (shape_of plan.now.accepted) }
    requires known { thread.0 < length plan.now.accepted.threads }
    requires header { IsHeader header }
    ensures { result ≡ wear.is_high (committed (by_place plan.now.accepted words.now) thread.0 (word_of header)) }
{
    header_word(plan, words, thread, header) >= HALF_COUNT
}

// Whether the queue of a thread has no positions left for all readings that are listed for it.
fn wears_queue(plan: &Plan, listed: &[u32], words: &[u64], thread: ThreadId) -> bool
    requires count { length words.now ≡ words_of (shape_of plan.now.accepted) }
    requires listed { length listed.now ≡ length plan.now.accepted.sources }
    requires known { thread.0 < length plan.now.accepted.threads }
    ensures { result ≡ wear.wears_queue plan.now.accepted listed.now (by_place plan.now.accepted words.now) thread.0 }
{
    let coming = listed_into(plan, listed, thread) as u128;
    published(plan, words, thread).saturating_add(coming) > GREATEST_TAIL
}

// How many readings are listed for the sources of a thread.
fn listed_into(plan: &Plan, listed: &[u32], thread: ThreadId) -> u64
    requires { length listed.now ≡ length plan.now.accepted.sources }
    ensures { result ≡ worn.listed_into plan.now.accepted listed.now thread.0 (length plan.now.accepted.sources) }
{
    let sources = plan.program().sources.as_slice();
    let mut sum = 0;
    for i in 0..sources.len() {
        if sources[i] == thread {
            sum += listed[i] as u64;
        }
    }
    sum
}

// Whether one of the pipes is worn.
fn wears_pipes(plan: &Plan, words: &[u64]) -> bool
    requires { length words.now ≡ words_of (shape_of plan.now.accepted) }
    ensures { let test = wear.wears_pipe plan.now.accepted (by_place plan.now.accepted words.now) in
        result ≡ wear.any_below test (length plan.now.accepted.pipes) }
{
    for q in 0..plan.program().pipes.len() {
        if wears_pipe(plan, words, PipeId(q as u8)) {
            return true;
        }
    }
    false
}

// Whether a count of a pipe's items has half of its range behind it.
fn wears_pipe(plan: &Plan, words: &[u64], pipe: PipeId) -> bool
    requires count { length words.now ≡ words_of (shape_of plan.now.accepted) }
    requires known { pipe.0 < length plan.now.accepted.pipes }
    ensures { result ≡ wear.wears_pipe plan.now.accepted (by_place plan.now.accepted words.now) pipe.0 }
{
    written(plan, words, pipe) >= HALF_COUNT || taken(plan, words, pipe) >= HALF_COUNT
}
