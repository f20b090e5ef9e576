//! Pipes: the fourth check of an image.

ghost use Rattle.std.specs.Prelude.{IfNone, IfSome, ◌≡◌, ◌<◌, ◌^◌, ◌≤◌, ◌%◌, ◌↔◌, IsTrue, length};
ghost use Rattle.fram_words.specs.Header as header;
ghost use Rattle.fram_words.specs.Places.{Ring};
ghost use Rattle.fram_words.specs.Steps.{place_of};
ghost use Rattle.prog_check.specs.Lookup.{pipe_def};
ghost use Rattle.ink_layout.specs.Shape.{IsOnBoard, shape_of, words_of};
ghost use Rattle.never_cut.specs.Image.{IsItemWord, IsPipeCount, IsPipeRight, written_of};
ghost use Rattle.image_checks.specs.Board.{board};
ghost use Rattle.image_checks.specs.Failing.{FindsFault, IsFirstPipeFault, IsPipeFault, PipesHold};
ghost use Rattle.image_checks.specs.Failing as failing;

use crate::blocks::block_place;
use fram_words::{Header, Place};
use image_told::{taken, word_at, written};
use ink_base::PipeId;
use ink_layout::Plan;

/// The first place at which a pipe fails.
pub fn failing_pipe(plan: &Plan, words: &[u64]) -> Option<Place>
    requires { length words.now ≡ words_of (shape_of plan.now.accepted) }
    ensures none { IfNone result (PipesHold plan.now.accepted (board plan.now.accepted words.now)) }
    ensures first { IfSome result (λ place. IsFirstPipeFault plan.now.accepted (board plan.now.accepted words.now) (place_of place)) }
{
    for q in 0..plan.program().pipes.len() {
        if let Some(place) = failing_in(plan, words, PipeId(q as u8)) {
            return Some(place);
        }
    }
    None
}

// The place at which a pipe fails.
fn failing_in(plan: &Plan, words: &[u64], pipe: PipeId) -> Option<Place>
    requires count { length words.now ≡ words_of (shape_of plan.now.accepted) }
    requires known { pipe.0 < length plan.now.accepted.pipes }
    ensures none { IfNone result (IsPipeRight plan.now.accepted (board plan.now.accepted words.now) pipe.0) }
    ensures fault { IfSome result (λ place. IsPipeFault plan.now.accepted (board plan.now.accepted words.now) pipe.0 (place_of place)) }
{
    if !has_right_counts(plan, words, pipe) {
        return Some(written_place(plan, words, pipe));
    }
    match failing_item(plan, words, pipe) {
        Some(item) => Some(item_place(plan, pipe, item)),
        None => None,
    }
}

// Whether no fewer items were written than taken, and no more behind those than the pipe has places.
fn has_right_counts(plan: &Plan, words: &[u64], pipe: PipeId) -> bool
    requires count { length words.now ≡ words_of (shape_of plan.now.accepted) }
    requires known { pipe.0 < length plan.now.accepted.pipes }
    ensures { IsTrue result ↔ IsPipeCount plan.now.accepted (board plan.now.accepted words.now) pipe.0 }
{
    let (taken, written) = (taken(plan, words, pipe), written(plan, words, pipe));
    taken <= written && written - taken <= u64::from(places(plan, pipe))
}

// How many places a pipe has.
fn places(plan: &Plan, pipe: PipeId) -> u8
    requires { pipe.0 < length plan.now.accepted.pipes }
    ensures number { result ≡ (pipe_def plan.now.accepted pipe.0).places }
    ensures least { 1 ≤ result }
{
    plan.program().pipes.as_slice()[usize::from(pipe.0)].places
}

// Where the count of a pipe's written items stands: in the block of its writer.
fn written_place(plan: &Plan, words: &[u64], pipe: PipeId) -> Place
    requires count { length words.now ≡ words_of (shape_of plan.now.accepted) }
    requires known { pipe.0 < length plan.now.accepted.pipes }
    ensures { place_of result ≡ failing.block_place (board plan.now.accepted words.now) (pipe_def plan.now.accepted pipe.0).writer.0 (header.written pipe.0) }
{
    let writer = plan.program().pipes.as_slice()[usize::from(pipe.0)].writer;
    block_place(
        plan,
        words,
        writer,
        Header::Written(u32::from(pipe.0)).word(),
    )
}

// The first item whose word has more than 32 bits.
fn failing_item(plan: &Plan, words: &[u64], pipe: PipeId) -> Option<u64>
    requires count { length words.now ≡ words_of (shape_of plan.now.accepted) }
    requires known { pipe.0 < length plan.now.accepted.pipes }
    ensures { FindsFault (IsItemWord plan.now.accepted (board plan.now.accepted words.now) pipe.0)
        (written_of plan.now.accepted (board plan.now.accepted words.now) pipe.0) result }
{
    for item in taken(plan, words, pipe)..written(plan, words, pipe) {
        if word_at(plan, words, item_place(plan, pipe, item)) > u64::from(u32::MAX) {
            return Some(item);
        }
    }
    None
}

// Where an item stands.
fn item_place(plan: &Plan, pipe: PipeId, item: u64) -> Place
    requires { pipe.0 < length plan.now.accepted.pipes }
    ensures place { place_of result ≡ Ring pipe.0 (item % (pipe_def plan.now.accepted pipe.0).places) }
    ensures there { IsOnBoard plan.now.accepted (place_of result) }
{
    let index = (item % u64::from(places(plan, pipe))) as u32;
    Place::Ring { pipe, index }
}
