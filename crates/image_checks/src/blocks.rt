//! The committed copies of the threads' blocks: the third check of an image.

ghost use Rattle.std.specs.Prelude.{IfNone, IfSome, ◌≡◌, ◌*◌, ◌<◌, ◌≤◌, ◌↔◌, IsTrue, length};
ghost use Rattle.ink_base.specs.declared.limits.TheConstants as limits;
ghost use Rattle.fram_words.specs.Header as header;
ghost use Rattle.fram_words.specs.Steps.{place_of};
ghost use Rattle.prog_check.specs.Lookup.{thread_def};
ghost use Rattle.ink_layout.specs.Shape.{IsOnBoard, pages_of, shape_of, words_of};
ghost use Rattle.never_cut.specs.Image.{IsBlockWord};
ghost use Rattle.image_checks.specs.Board.{board};
ghost use Rattle.image_checks.specs.Failing.{BlocksHold, FindsFault, IsFirstBlockFault};
ghost use Rattle.image_checks.specs.Failing as failing;
ghost use Rattle.image_checks.specs.kept.Headers.{IsRightBehind};

use crate::headers::{header_at, is_header_word};
use fram_words::{Header, Place};
use image_told::{committed_word, word_at};
use ink_base::ThreadId;
use ink_layout::Plan;
use thread_state::place_in;

/// The first word of a thread's committed copy that isn't right.
pub(crate) fn failing_block_word(plan: &Plan, words: &[u64]) -> Option<Place>
    requires { length words.now ≡ words_of (shape_of plan.now.accepted) }
    ensures none { IfNone result (BlocksHold plan.now.accepted (board plan.now.accepted words.now)) }
    ensures first { IfSome result (λ place. IsFirstBlockFault plan.now.accepted (board plan.now.accepted words.now) (place_of place)) }
{
    for t in 0..plan.program().threads.len() {
        let thread = ThreadId(t as u8);
        if let Some(word) = failing_word(plan, words, thread) {
            return Some(block_place(plan, words, thread, word));
        }
    }
    None
}

// The number of the first word of a thread's block that isn't right.
fn failing_word(plan: &Plan, words: &[u64], thread: ThreadId) -> Option<u32>
    requires count { length words.now ≡ words_of (shape_of plan.now.accepted) }
    requires known { thread.0 < length plan.now.accepted.threads }
    ensures { FindsFault (IsBlockWord plan.now.accepted (board plan.now.accepted words.now) thread.0) (8 * pages_of (thread_def plan.now.accepted thread.0)) result }
{
    for word in 0..8 * page_count(plan, thread) {
        if !is_block_word(plan, words, thread, word) {
            return Some(word);
        }
    }
    None
}

/// How many pages a thread's block has.
pub fn page_count(plan: &Plan, thread: ThreadId) -> u32
    requires { thread.0 < length plan.now.accepted.threads }
    ensures number { result ≡ pages_of (thread_def plan.now.accepted thread.0) }
    ensures few { result < 64 }
{
    (Header::WORDS + state_len(plan, thread)).div_ceil(8)
}

// How many numbers the state of a thread has.
fn state_len(plan: &Plan, thread: ThreadId) -> u32
    requires { thread.0 < length plan.now.accepted.threads }
    ensures number { result ≡ (thread_def plan.now.accepted thread.0).state }
    ensures few { result ≤ limits.STATE_NUMBERS }
{
    u32::from(plan.program().threads.as_slice()[usize::from(thread.0)].state)
}

/// Where a word of a thread's block stands: in the committed copy of its page.
pub fn block_place(plan: &Plan, words: &[u64], thread: ThreadId, word: u32) -> Place
    requires count { length words.now ≡ words_of (shape_of plan.now.accepted) }
    requires known { thread.0 < length plan.now.accepted.threads }
    requires within { word < 8 * pages_of (thread_def plan.now.accepted thread.0) }
    ensures { place_of result ≡ failing.block_place (board plan.now.accepted words.now) thread.0 word }
{
    // A block has fewer than 64 pages.
    let _pages = page_count(plan, thread);
    place_in(thread, word_at(plan, words, Place::Commit { thread }), word)
}

/// Whether a word of a thread's block is right.
pub fn is_block_word(plan: &Plan, words: &[u64], thread: ThreadId, word: u32) -> bool
    requires count { length words.now ≡ words_of (shape_of plan.now.accepted) }
    requires known { thread.0 < length plan.now.accepted.threads }
    requires within { word < 8 * pages_of (thread_def plan.now.accepted thread.0) }
    ensures { IsTrue result ↔ IsBlockWord plan.now.accepted (board plan.now.accepted words.now) thread.0 word }
{
    match header_at(word) {
        Some(header) => is_header_word(plan, words, thread, header),
        None => is_behind_word(plan, words, thread, word),
    }
}

// Whether a word, where it is behind those of the header that are used, is right: it is 0, or a number of the state with 32 bits.
fn is_behind_word(plan: &Plan, words: &[u64], thread: ThreadId, word: u32) -> bool
    requires count { length words.now ≡ words_of (shape_of plan.now.accepted) }
    requires known { thread.0 < length plan.now.accepted.threads }
    requires within { word < 8 * pages_of (thread_def plan.now.accepted thread.0) }
    ensures { IsTrue result ↔ IsRightBehind plan.now.accepted (board plan.now.accepted words.now) thread.0 word }
{
    let found = committed_word(plan, words, thread, word);
    let is_state = Header::WORDS <= word && word < Header::WORDS + state_len(plan, thread);
    found == 0 || is_state && found <= u64::from(u32::MAX)
}
