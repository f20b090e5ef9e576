//! The first place at which the words of a board fail to be an image.

ghost use Rattle.std.specs.Prelude.{IfNone, IfSome, ◌≡◌, length};
ghost use Rattle.std.specs.Option.{ForSome, ForNone};
ghost use Rattle.fram_words.specs.Steps.{place_of};
ghost use Rattle.ink_layout.specs.Shape.{IsOnBoard, shape_of, words_of};
ghost use Rattle.never_cut.specs.Image.{IsImage};
ghost use Rattle.image_checks.specs.Failing.{IsFirstFailing};
ghost use Rattle.image_checks.specs.Board.{board};

use crate::blocks::failing_block_word;
use crate::code::{failing_code, failing_commit_word};
use crate::logs::failing_log_word;
use crate::pipes::failing_pipe;
use crate::queues::failing_queue;
use crate::sources::failing_source;
use fram_words::Place;
use ink_layout::Plan;

/// Whether the words of a board are an image of its program: none where they are; else the place of the first check that fails, in the
/// order of the seven checks and of their places.
pub fn first_failing(plan: &Plan, words: &[u64]) -> Option<Place>
    requires { length words.now ≡ words_of (shape_of plan.now.accepted) }
    ensures none { ForNone result (IsImage plan.now.accepted (board plan.now.accepted words.now)) }
    ensures first { ForSome result (λ place. IsFirstFailing plan.now.accepted (board plan.now.accepted words.now) (place_of place)) }
    ensures there { ForSome result (λ place. IsOnBoard plan.now.accepted (place_of place)) }
{
    // The program is accepted, so the place is one of its board.
    let _program = plan.program();
    failing_check(plan, words)
}

// The place of the first of the seven checks that fails.
fn failing_check(plan: &Plan, words: &[u64]) -> Option<Place>
    requires { length words.now ≡ words_of (shape_of plan.now.accepted) }
    ensures none { IfNone result (IsImage plan.now.accepted (board plan.now.accepted words.now)) }
    ensures first { IfSome result (λ place. IsFirstFailing plan.now.accepted (board plan.now.accepted words.now) (place_of place)) }
{
    if let Some(place) = failing_code(plan, words) {
        return Some(place);
    }
    if let Some(place) = failing_commit_word(plan, words) {
        return Some(place);
    }
    if let Some(place) = failing_block_word(plan, words) {
        return Some(place);
    }
    if let Some(place) = failing_pipe(plan, words) {
        return Some(place);
    }
    if let Some(place) = failing_log_word(plan, words) {
        return Some(place);
    }
    if let Some(place) = failing_queue(plan, words) {
        return Some(place);
    }
    failing_source(plan, words)
}
