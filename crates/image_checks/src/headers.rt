//! The words of a thread's header in an image.

ghost use Rattle.std.specs.Prelude.{IfNone, IfSome, ◌≡◌, ◌+◌, ◌<◌, ◌≤◌, ◌↔◌, IsTrue, length};
ghost use Rattle.fram_words.specs.Header.{IsHeader, due, word_of};
ghost use Rattle.prog_check.specs.Lookup.{thread_def};
ghost use Rattle.ink_layout.specs.Shape.{shape_of, words_of};
ghost use Rattle.image_checks.specs.Board.{board};
ghost use Rattle.image_checks.specs.kept.Headers.{IsRightHeader};

use crate::chains::{is_next_word, is_origin_word, is_value_word};
use crate::owners::{owns, reads, writes};
use fram_words::{Header, Place};
use image_told::{header_word, word_at};
use ink_base::ThreadId;
use ink_layout::Plan;

/// The header word of a number; none where the header has no use for it.
pub(crate) fn header_at(word: u32) -> Option<Header>
    ensures some { IfSome result (λ named. IsHeader named × (word_of named ≡ word)) }
    ensures none { IfNone result (due 8 ≤ word) }
{
    match word {
        0 => Some(Header::Stamp),
        1 => Some(Header::Next),
        2 => Some(Header::First),
        3 => Some(Header::Origin),
        4 => Some(Header::Value),
        5 => Some(Header::Finished),
        6 => Some(Header::Served),
        7 => Some(Header::Trapped),
        8 => Some(Header::Expired),
        9 => Some(Header::Outputs),
        10..=17 => Some(Header::Written(word - 10)),
        18..=25 => Some(Header::Taken(word - 18)),
        26..=41 => Some(timer_word(word - 26)),
        _ => None,
    }
}

// The word of a timer, as they follow each other: of each timer its due word, and then its period.
fn timer_word(number: u32) -> Header
    requires { number < 16 }
    ensures { IsHeader result × (word_of result ≡ due 0 + number) }
{
    let timer = number / 2;
    if number % 2 == 0 {
        Header::Due(timer)
    } else {
        Header::Period(timer)
    }
}

/// Whether a word of a thread's header is right in the committed copy.
pub(crate) fn is_header_word(plan: &Plan, words: &[u64], thread: ThreadId, header: Header) -> bool
    requires count { length words.now ≡ words_of (shape_of plan.now.accepted) }
    requires known { thread.0 < length plan.now.accepted.threads }
    requires header { IsHeader header }
    ensures { IsTrue result ↔ IsRightHeader plan.now.accepted (board plan.now.accepted words.now) thread.0 header }
{
    let word = header_word(plan, words, thread, header);
    match header {
        Header::Next => is_next_word(plan, words, thread),
        Header::First => word <= word_at(plan, words, Place::Clock),
        Header::Origin => is_origin_word(plan, words, thread),
        Header::Value => is_value_word(plan, words, thread),
        Header::Outputs => word <= u64::from(log_len(plan, thread)),
        Header::Written(pipe) => word == 0 || writes(plan, thread, pipe),
        Header::Taken(pipe) => word == 0 || reads(plan, thread, pipe),
        Header::Due(timer) => word == 0 || word <= 1 << 48 && owns(plan, thread, timer),
        Header::Period(timer) => word == 0
            || word <= u64::from(u32::MAX) && owns(plan, thread, timer),
        Header::Stamp | Header::Finished | Header::Served | Header::Trapped | Header::Expired =>
            true,
    }
}

// How many words a thread's log has.
fn log_len(plan: &Plan, thread: ThreadId) -> u16
    requires { thread.0 < length plan.now.accepted.threads }
    ensures { result ≡ (thread_def plan.now.accepted thread.0).log }
{
    plan.program().threads.as_slice()[usize::from(thread.0)].log
}
