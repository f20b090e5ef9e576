//! The origin of a running chain's event in the earlier form: that of a source's event has the number of its reading.

ghost use Rattle.std.specs.Prelude.{◌≡◌, ◌/◌, ◌^◌, ◌<◌, ◌↔◌, IsTrue, length};
ghost use Rattle.ink_layout.specs.Shape.{shape_of, words_of};
ghost use Rattle.image_checks.specs.Board.{board};
ghost use Rattle.old_image.specs.Told as told;
ghost use Rattle.old_image.specs.Image.{HasSourceChain};
ghost use Rattle.old_image.specs.Renewed as renewed;
ghost use Rattle.old_image.specs.kept.Origins.{IsSourceWord};

use crate::old_event::OldEvent;
use crate::queue::feeds;
use fram_words::Header;
use image_told::header_word;
use ink_base::{SourceId, ThreadId};
use ink_layout::Plan;

/// Whether a chain of an event of a source runs.
pub(crate) fn has_source_chain(plan: &Plan, words: &[u64], thread: ThreadId) -> bool
    requires count { length words.now ≡ words_of (shape_of plan.now.accepted) }
    requires known { thread.0 < length plan.now.accepted.threads }
    ensures { IsTrue result ↔ HasSourceChain (board plan.now.accepted words.now) thread.0 }
{
    let origin = header_word(plan, words, thread, Header::Origin);
    header_word(plan, words, thread, Header::Next) != 0 && origin / (1 << 56) == 1
}

/// Whether a word that is of the kind of a source's event is the origin of an event of a source of the thread.
pub(crate) fn is_source_word(plan: &Plan, thread: ThreadId, word: u64) -> bool
    requires { word / 2 ^ 56 ≡ 1 }
    ensures { IsTrue result ↔ IsSourceWord plan.now.accepted thread.0 word }
{
    // A program has few sources.
    let _program = plan.program();
    let number = word % (1 << 56) / (1 << 16);
    number < 256 && feeds(plan, thread, SourceId(number as u8))
}

/// The word of an event's origin.
pub(crate) fn old_origin_word(event: OldEvent) -> u64
    ensures { result ≡ told.old_origin_word event }
{
    (1 << 56) + event.source.0 as u64 * (1 << 16) + event.reading as u64
}

/// The word of the origin of a source's event without the number of its reading.
pub(crate) fn without_reading(word: u64) -> u64
    ensures { result ≡ renewed.without_reading word }
{
    word / (1 << 16) * (1 << 16)
}
