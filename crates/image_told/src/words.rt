//! Single words.

ghost use Rattle.std.specs.Prelude.{◌≡◌, ◌*◌, ◌<◌, length};
ghost use Rattle.prog_check.specs.Lookup.{thread_def};
ghost use Rattle.fram_words.specs.Header.{IsHeader, word_of};
ghost use Rattle.fram_words.specs.Shape.{memory_of};
ghost use Rattle.fram_words.specs.Steps.{place_of};
ghost use Rattle.thread_state.specs.Pages.{committed};
ghost use Rattle.ink_layout.specs.Shape.{IsOnBoard, pages_of, shape_of, words_of};

use fram_words::{Header, Place};
use ink_base::ThreadId;
use ink_layout::Plan;
use thread_state::place_in;

/// The word of a place of the program's board.
pub fn word_at(plan: &Plan, words: &[u64], place: Place) -> u64
    requires count { length words.now ≡ words_of (shape_of plan.now.accepted) }
    requires there { IsOnBoard plan.now.accepted (place_of place) }
    ensures { result ≡ memory_of (shape_of plan.now.accepted) words.now (place_of place) }
{
    // The layout is the program's own.
    let _program = plan.program();
    words[plan.address(place) as usize]
}

/// A word of the committed copy of a thread's block.
pub fn committed_word(plan: &Plan, words: &[u64], thread: ThreadId, word: u32) -> u64
    requires count { length words.now ≡ words_of (shape_of plan.now.accepted) }
    requires known { thread.0 < length plan.now.accepted.threads }
    requires within { word < 8 * pages_of (thread_def plan.now.accepted thread.0) }
    ensures { result ≡ committed (memory_of (shape_of plan.now.accepted) words.now) thread.0 word }
{
    // A block has at most 38 pages.
    let _program = plan.program();
    let mask = word_at(plan, words, Place::Commit { thread });
    word_at(plan, words, place_in(thread, mask, word))
}

/// A word of the header in that copy.
pub fn header_word(plan: &Plan, words: &[u64], thread: ThreadId, header: Header) -> u64
    requires count { length words.now ≡ words_of (shape_of plan.now.accepted) }
    requires known { thread.0 < length plan.now.accepted.threads }
    requires header { IsHeader header }
    ensures { result ≡ committed (memory_of (shape_of plan.now.accepted) words.now) thread.0 (word_of header) }
{
    committed_word(plan, words, thread, header.word())
}
