//! The counts of pipes.

ghost use Rattle.std.specs.Prelude.{◌≡◌, ◌<◌, length};
ghost use Rattle.fram_words.specs.Shape.{memory_of};
ghost use Rattle.ink_layout.specs.Shape.{shape_of, words_of};
ghost use Rattle.never_cut.specs.Image.{taken_of, written_of};

use crate::words::header_word;
use fram_words::Header;
use ink_base::PipeId;
use ink_layout::Plan;

/// How many items were written to a pipe, as the block of its writer counts them.
pub fn written(plan: &Plan, words: &[u64], pipe: PipeId) -> u64
    requires count { length words.now ≡ words_of (shape_of plan.now.accepted) }
    requires known { pipe.0 < length plan.now.accepted.pipes }
    ensures { result ≡ written_of plan.now.accepted (memory_of (shape_of plan.now.accepted) words.now) pipe.0 }
{
    let writer = plan.program().pipes.as_slice()[pipe.0 as usize].writer;
    header_word(plan, words, writer, Header::Written(pipe.0 as u32))
}

/// How many items were taken from a pipe, as the block of its reader counts them.
pub fn taken(plan: &Plan, words: &[u64], pipe: PipeId) -> u64
    requires count { length words.now ≡ words_of (shape_of plan.now.accepted) }
    requires known { pipe.0 < length plan.now.accepted.pipes }
    ensures { result ≡ taken_of plan.now.accepted (memory_of (shape_of plan.now.accepted) words.now) pipe.0 }
{
    let reader = plan.program().pipes.as_slice()[pipe.0 as usize].reader;
    header_word(plan, words, reader, Header::Taken(pipe.0 as u32))
}
