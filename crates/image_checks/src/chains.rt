//! The words of a header that tell of a running chain: its next task, its event's origin and its event's value.

ghost use Rattle.std.specs.Prelude.{◌≡◌, ◌<◌, ◌↔◌, IsTrue, length};
ghost use Rattle.ink_base.specs.declared.event.Origin.{Origin};
ghost use Rattle.fram_words.specs.Held as held;
ghost use Rattle.ink_layout.specs.Shape.{shape_of, words_of};
ghost use Rattle.never_cut.specs.Ranges.{IsOwnOrigin, IsTaskOf};
ghost use Rattle.never_cut.specs.Image.{HasChain, IsChainOrigin, IsChainValue, IsTakenLast};
ghost use Rattle.image_checks.specs.Board.{board};
ghost use Rattle.image_checks.specs.kept.Headers.{IsChainWord, IsRightNext, IsRightOrigin, IsRightValue};

use crate::owners::{is_fed_by, owns, reads};
use fram_words::{Header, origin_word, read_origin};
use image_told::header_word;
use ink_base::{Origin, ThreadId};
use ink_layout::Plan;

// The number of an event's count before which it begins again.
const COUNTS: u8 = 64;

/// Whether the word of a thread's next task is right.
pub(crate) fn is_next_word(plan: &Plan, words: &[u64], thread: ThreadId) -> bool
    requires count { length words.now ≡ words_of (shape_of plan.now.accepted) }
    requires known { thread.0 < length plan.now.accepted.threads }
    ensures { IsTrue result ↔ IsRightNext plan.now.accepted (board plan.now.accepted words.now) thread.0 }
{
    match header_word(plan, words, thread, Header::Next).checked_sub(1) {
        Some(task) => is_task_of(plan, thread, task),
        None => true,
    }
}

// Whether a number is that of a task of the thread.
fn is_task_of(plan: &Plan, thread: ThreadId, task: u64) -> bool
    ensures { IsTrue result ↔ IsTaskOf plan.now.accepted thread.0 task }
{
    match plan.program().tasks.as_slice().get(task as usize) {
        Some(task) => task.thread == thread,
        None => false,
    }
}

/// Whether the word of the origin of a thread's event is right.
pub(crate) fn is_origin_word(plan: &Plan, words: &[u64], thread: ThreadId) -> bool
    requires count { length words.now ≡ words_of (shape_of plan.now.accepted) }
    requires known { thread.0 < length plan.now.accepted.threads }
    ensures { IsTrue result ↔ IsRightOrigin plan.now.accepted (board plan.now.accepted words.now) thread.0 }
{
    !has_chain(plan, words, thread)
        || is_chain_word(
            plan,
            words,
            thread,
            header_word(plan, words, thread, Header::Origin),
        )
}

// Whether a chain of the thread runs.
fn has_chain(plan: &Plan, words: &[u64], thread: ThreadId) -> bool
    requires count { length words.now ≡ words_of (shape_of plan.now.accepted) }
    requires known { thread.0 < length plan.now.accepted.threads }
    ensures { IsTrue result ↔ HasChain (board plan.now.accepted words.now) thread.0 }
{
    header_word(plan, words, thread, Header::Next) != 0
}

// Whether a word is that of an origin that the thread's chain may have.
fn is_chain_word(plan: &Plan, words: &[u64], thread: ThreadId, word: u64) -> bool
    requires count { length words.now ≡ words_of (shape_of plan.now.accepted) }
    requires known { thread.0 < length plan.now.accepted.threads }
    ensures { IsTrue result ↔ IsChainWord plan.now.accepted (board plan.now.accepted words.now) thread.0 word }
{
    // The program is accepted, so the numbers of its parts fit their bits.
    let _program = plan.program();
    let origin = read_origin(word);
    origin_word(origin) == word && is_chain_origin(plan, words, thread, origin)
}

// Whether the thread's chain may have this origin.
fn is_chain_origin(plan: &Plan, words: &[u64], thread: ThreadId, origin: Origin) -> bool
    requires count { length words.now ≡ words_of (shape_of plan.now.accepted) }
    requires known { thread.0 < length plan.now.accepted.threads }
    requires fits { held.FitsOrigin origin }
    ensures { IsTrue result ↔ IsChainOrigin plan.now.accepted (board plan.now.accepted words.now) thread.0 origin }
{
    is_own(plan, thread, origin) && is_taken_last(plan, words, thread, origin)
}

// Whether an origin is one of the thread's own: of a source of it, of a pipe that it reads, or of its timer.
fn is_own(plan: &Plan, thread: ThreadId, origin: Origin) -> bool
    requires { held.FitsOrigin origin }
    ensures { IsTrue result ↔ IsOwnOrigin plan.now.accepted thread.0 origin }
{
    match origin {
        Origin::Source { source, count } => count < COUNTS && is_fed_by(plan, thread, source),
        Origin::Pipe { pipe, .. } => reads(plan, thread, u32::from(pipe.0)),
        Origin::Timer { timer, .. } => owns(plan, thread, u32::from(timer.0)),
    }
}

// Whether an own origin is of the item that was taken last, where it is of a pipe.
fn is_taken_last(plan: &Plan, words: &[u64], thread: ThreadId, origin: Origin) -> bool
    requires count { length words.now ≡ words_of (shape_of plan.now.accepted) }
    requires known { thread.0 < length plan.now.accepted.threads }
    requires own { IsOwnOrigin plan.now.accepted thread.0 origin }
    ensures { IsTrue result ↔ IsTakenLast (board plan.now.accepted words.now) thread.0 origin }
{
    // A program has at most 8 pipes.
    let _program = plan.program();
    match origin {
        Origin::Pipe { pipe, item } => {
            u64::from(item) + 1
                == header_word(plan, words, thread, Header::Taken(u32::from(pipe.0)))
        }
        _ => true,
    }
}

/// Whether the word of the value of a thread's event is right.
pub(crate) fn is_value_word(plan: &Plan, words: &[u64], thread: ThreadId) -> bool
    requires count { length words.now ≡ words_of (shape_of plan.now.accepted) }
    requires known { thread.0 < length plan.now.accepted.threads }
    ensures { IsTrue result ↔ IsRightValue plan.now.accepted (board plan.now.accepted words.now) thread.0 }
{
    let origin = read_origin(header_word(plan, words, thread, Header::Origin));
    let value = header_word(plan, words, thread, Header::Value);
    !has_chain(plan, words, thread) || is_chain_value(origin, value)
}

// Whether an event of this origin may have the value.
fn is_chain_value(origin: Origin, value: u64) -> bool
    ensures { IsTrue result ↔ IsChainValue origin value }
{
    match origin {
        Origin::Timer { deadline, .. } => value == deadline % (1 << 32),
        _ => value <= u64::from(u32::MAX),
    }
}
