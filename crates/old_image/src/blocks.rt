//! The committed copies of the threads' blocks in the earlier form: the third check.

ghost use Rattle.std.specs.Prelude.{◌≡◌, ◌*◌, ◌<◌, ◌↔◌, IfSome, IfNone, IsTrue, length};
ghost use Rattle.fram_words.specs.Header as header;
ghost use Rattle.fram_words.specs.Steps.{place_of};
ghost use Rattle.prog_check.specs.Lookup.{thread_def};
ghost use Rattle.ink_layout.specs.Shape.{pages_of, shape_of, words_of};
ghost use Rattle.image_checks.specs.Board.{board};
ghost use Rattle.image_checks.specs.Failing.{FindsFault};
ghost use Rattle.old_image.specs.Image.{IsOldBlockWord, HasSourceChain};
ghost use Rattle.old_image.specs.Failing.{OldBlocksHold, IsFirstOldBlockFault};

use crate::origins::{has_source_chain, is_source_word};
use fram_words::{Header, Place};
use image_checks::{block_place, is_block_word, page_count};
use image_told::header_word;
use ink_base::ThreadId;
use ink_layout::Plan;

/// The first word of a thread's committed copy that isn't right.
pub(crate) fn failing_old_block(plan: &Plan, words: &[u64]) -> Option<Place>
    requires { length words.now ≡ words_of (shape_of plan.now.accepted) }
    ensures none { IfNone result (OldBlocksHold plan.now.accepted (board plan.now.accepted words.now)) }
    ensures first { IfSome result (λ place. IsFirstOldBlockFault plan.now.accepted (board plan.now.accepted words.now) (place_of place)) }
{
    for t in 0..plan.program().threads.len() {
        let thread = ThreadId(t as u8);
        if let Some(word) = failing_word(plan, words, thread) {
            return Some(block_place(plan, words, thread, word));
        }
    }
    None
}

// The number of the first word of a thread's block that isn't right.
fn failing_word(plan: &Plan, words: &[u64], thread: ThreadId) -> Option<u32>
    requires count { length words.now ≡ words_of (shape_of plan.now.accepted) }
    requires known { thread.0 < length plan.now.accepted.threads }
    ensures { let memory = board plan.now.accepted words.now in
        FindsFault (IsOldBlockWord plan.now.accepted memory thread.0) (8 * pages_of (thread_def plan.now.accepted thread.0)) result }
{
    for word in 0..8 * page_count(plan, thread) {
        if !is_old_block_word(plan, words, thread, word) {
            return Some(word);
        }
    }
    None
}

// Whether a word of a thread's block is right: the origin of an event of a source has the number of a reading.
fn is_old_block_word(plan: &Plan, words: &[u64], thread: ThreadId, word: u32) -> bool
    requires count { length words.now ≡ words_of (shape_of plan.now.accepted) }
    requires known { thread.0 < length plan.now.accepted.threads }
    requires within { word < 8 * pages_of (thread_def plan.now.accepted thread.0) }
    ensures { IsTrue result ↔ IsOldBlockWord plan.now.accepted (board plan.now.accepted words.now) thread.0 word }
{
    // The program is accepted.
    let _program = plan.program();
    let origin = Header::Origin.word();
    if word != origin {
        return is_block_word(plan, words, thread, word);
    }
    if !has_source_chain(plan, words, thread) {
        return is_block_word(plan, words, thread, word);
    }
    is_source_origin(plan, words, thread)
}

// Whether the origin of a running chain of an event of a source is one of a source of the thread.
fn is_source_origin(plan: &Plan, words: &[u64], thread: ThreadId) -> bool
    requires count { length words.now ≡ words_of (shape_of plan.now.accepted) }
    requires known { thread.0 < length plan.now.accepted.threads }
    requires chain { HasSourceChain (board plan.now.accepted words.now) thread.0 }
    ensures { IsTrue result ↔ IsOldBlockWord plan.now.accepted (board plan.now.accepted words.now) thread.0 header.origin }
{
    // The program is accepted.
    let _program = plan.program();
    let word = header_word(plan, words, thread, Header::Origin);
    is_source_word(plan, thread, word)
}
