//! Where words fail to be an image of the earlier form.

ghost use Rattle.std.specs.Prelude.{◌≡◌, IfSome, IfNone, length};
ghost use Rattle.fram_words.specs.Steps.{place_of};
ghost use Rattle.ink_layout.specs.Shape.{IsOnBoard, shape_of, words_of};
ghost use Rattle.image_checks.specs.Board.{board};
ghost use Rattle.old_image.specs.Image.{IsOldImage};
ghost use Rattle.old_image.specs.Failing.{IsFirstFailingOld};
ghost use Rattle.old_image.specs.kept.Parts.{PrivateHolds};

use crate::blocks::failing_old_block;
use crate::queues::failing_old_queue;
use crate::sources::failing_old_source;
use fram_words::Place;
use image_checks::{failing_code, failing_commit_word, failing_output_word, failing_pipe};
use ink_layout::Plan;

/// The first place at which words of the program's board fail to be an image of the earlier form; none exactly where they are one.
pub fn first_failing_old(plan: &Plan, words: &[u64]) -> Option<Place>
    requires { length words.now ≡ words_of (shape_of plan.now.accepted) }
    ensures none { IfNone result (IsOldImage plan.now.accepted (board plan.now.accepted words.now)) }
    ensures first { IfSome result (λ place. IsFirstFailingOld plan.now.accepted (board plan.now.accepted words.now) (place_of place)) }
    ensures there { IfSome result (λ place. IsOnBoard plan.now.accepted (place_of place)) }
{
    // The program is accepted.
    let _program = plan.program();
    match failing_private(plan, words) {
        Some(place) => Some(place),
        None => failing_shared(plan, words),
    }
}

// The first place at which code, commit words, blocks, pipes or logs fail.
fn failing_private(plan: &Plan, words: &[u64]) -> Option<Place>
    requires { length words.now ≡ words_of (shape_of plan.now.accepted) }
    ensures none { IfNone result (PrivateHolds plan.now.accepted (board plan.now.accepted words.now)) }
    ensures first { IfSome result (λ place. IsFirstFailingOld plan.now.accepted (board plan.now.accepted words.now) (place_of place)) }
{
    if let Some(place) = failing_code(plan, words) {
        return Some(place);
    }
    if let Some(place) = failing_commit_word(plan, words) {
        return Some(place);
    }
    if let Some(place) = failing_old_block(plan, words) {
        return Some(place);
    }
    if let Some(place) = failing_pipe(plan, words) {
        return Some(place);
    }
    failing_output_word(plan, words)
}

// The first place at which queues or sources fail, where nothing of those does.
fn failing_shared(plan: &Plan, words: &[u64]) -> Option<Place>
    requires count { length words.now ≡ words_of (shape_of plan.now.accepted) }
    requires private { PrivateHolds plan.now.accepted (board plan.now.accepted words.now) }
    ensures none { IfNone result (IsOldImage plan.now.accepted (board plan.now.accepted words.now)) }
    ensures first { IfSome result (λ place. IsFirstFailingOld plan.now.accepted (board plan.now.accepted words.now) (place_of place)) }
{
    match failing_old_queue(plan, words) {
        Some(place) => Some(place),
        None => failing_old_source(plan, words),
    }
}
