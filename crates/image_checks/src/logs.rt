//! The logs of outputs: the fifth check of an image.

ghost use Rattle.std.specs.Prelude.{IfNone, IfSome, ◌≡◌, ◌<◌, ◌≤◌, length};
ghost use Rattle.fram_words.specs.Header as header;
ghost use Rattle.fram_words.specs.Steps.{place_of};
ghost use Rattle.thread_state.specs.Pages.{committed};
ghost use Rattle.prog_check.specs.Lookup.{thread_def};
ghost use Rattle.ink_layout.specs.Shape.{shape_of, words_of};
ghost use Rattle.never_cut.specs.Image.{IsLogWord, stamp_at};
ghost use Rattle.image_checks.specs.Board.{board};
ghost use Rattle.image_checks.specs.Failing.{BlocksHold, FindsFault, HoldsBelow, IsFirstLogFault, IsLog, LogsHold, OutputsFit};
ghost use Rattle.image_checks.specs.kept.Logs.{AreRising, IsApart, IsApartFromFirst, IsEnd, IsInOrder, IsPast};

use fram_words::{Header, Place, read_output};
use image_told::{header_word, word_at};
use ink_base::ThreadId;
use ink_layout::Plan;

/// The first output word that isn't right, where the blocks of the threads are.
pub(crate) fn failing_log_word(plan: &Plan, words: &[u64]) -> Option<Place>
    requires count { length words.now ≡ words_of (shape_of plan.now.accepted) }
    requires blocks { BlocksHold plan.now.accepted (board plan.now.accepted words.now) }
    ensures none { IfNone result (LogsHold plan.now.accepted (board plan.now.accepted words.now)) }
    ensures first { IfSome result (λ place. IsFirstLogFault plan.now.accepted (board plan.now.accepted words.now) (place_of place)) }
{
    failing_output_word(plan, words)
}

/// The first output word that isn't right, where no thread has more outputs than places for them.
pub fn failing_output_word(plan: &Plan, words: &[u64]) -> Option<Place>
    requires count { length words.now ≡ words_of (shape_of plan.now.accepted) }
    requires fit { OutputsFit plan.now.accepted (board plan.now.accepted words.now) }
    ensures none { IfNone result (LogsHold plan.now.accepted (board plan.now.accepted words.now)) }
    ensures first { IfSome result (λ place. IsFirstLogFault plan.now.accepted (board plan.now.accepted words.now) (place_of place)) }
{
    for t in 0..plan.program().threads.len() {
        let thread = ThreadId(t as u8);
        if let Some(index) = failing_output(plan, words, thread) {
            return Some(Place::Log { thread, index });
        }
    }
    None
}

// The first output of a thread whose word isn't right, where the logs of the earlier threads are.
fn failing_output(plan: &Plan, words: &[u64], thread: ThreadId) -> Option<u32>
    requires count { length words.now ≡ words_of (shape_of plan.now.accepted) }
    requires known { thread.0 < length plan.now.accepted.threads }
    requires fit { OutputsFit plan.now.accepted (board plan.now.accepted words.now) }
    requires earlier { HoldsBelow (IsLog plan.now.accepted (board plan.now.accepted words.now)) thread.0 }
    ensures { FindsFault (IsLogWord plan.now.accepted (board plan.now.accepted words.now) thread.0)
        (committed (board plan.now.accepted words.now) thread.0 header.outputs) result }
{
    let count = outputs(plan, words, thread);
    let ordered = ordered_until(plan, words, thread, count);
    let end = apart_from_earlier(plan, words, thread, ordered);
    if end < count { Some(end) } else { None }
}

// How many outputs a thread has.
fn outputs(plan: &Plan, words: &[u64], thread: ThreadId) -> u32
    requires count { length words.now ≡ words_of (shape_of plan.now.accepted) }
    requires known { thread.0 < length plan.now.accepted.threads }
    requires fit { OutputsFit plan.now.accepted (board plan.now.accepted words.now) }
    ensures { result ≡ committed (board plan.now.accepted words.now) thread.0 header.outputs }
{
    // A log has at most as many places as its 16 bits count.
    let _places = plan.program().threads.as_slice()[usize::from(thread.0)].log;
    header_word(plan, words, thread, Header::Outputs) as u32
}

// The stamp of a thread's output.
fn stamp(plan: &Plan, words: &[u64], thread: ThreadId, index: u32) -> u64
    requires count { length words.now ≡ words_of (shape_of plan.now.accepted) }
    requires known { thread.0 < length plan.now.accepted.threads }
    requires within { index < (thread_def plan.now.accepted thread.0).log }
    ensures { result ≡ stamp_at (board plan.now.accepted words.now) thread.0 index }
{
    read_output(thread, word_at(plan, words, Place::Log { thread, index })).stamp
}

// The first of a thread's outputs whose stamp isn't from 1 to the thread's own or falls, or their number.
fn ordered_until(plan: &Plan, words: &[u64], thread: ThreadId, count: u32) -> u32
    requires count { length words.now ≡ words_of (shape_of plan.now.accepted) }
    requires known { thread.0 < length plan.now.accepted.threads }
    requires within { count ≤ (thread_def plan.now.accepted thread.0).log }
    ensures { IsEnd (IsInOrder (board plan.now.accepted words.now) thread.0) count result }
{
    let most = header_word(plan, words, thread, Header::Stamp);
    let mut least = 1;
    for n in 0..count {
        let stamp = stamp(plan, words, thread, n);
        if stamp < least || most < stamp {
            return n;
        }
        least = stamp;
    }
    count
}

// The first of a thread's outputs up to an end whose stamp stands in an earlier log, or the end.
fn apart_from_earlier(plan: &Plan, words: &[u64], thread: ThreadId, end: u32) -> u32
    requires count { length words.now ≡ words_of (shape_of plan.now.accepted) }
    requires known { thread.0 < length plan.now.accepted.threads }
    requires within { end ≤ (thread_def plan.now.accepted thread.0).log }
    requires fit { OutputsFit plan.now.accepted (board plan.now.accepted words.now) }
    requires earlier { HoldsBelow (IsLog plan.now.accepted (board plan.now.accepted words.now)) thread.0 }
    requires rising { AreRising (board plan.now.accepted words.now) thread.0 end }
    ensures { IsEnd (IsApartFromFirst (board plan.now.accepted words.now) thread.0 thread.0) end result }
{
    let mut until = end;
    for u in 0..thread.0 {
        until = apart_until(plan, words, ThreadId(u), thread, until);
    }
    until
}

// The first of a thread's outputs up to an end whose stamp stands in the log of another thread, or the end. Both logs rise, so one pass over both finds it.
fn apart_until(plan: &Plan, words: &[u64], other: ThreadId, thread: ThreadId, end: u32) -> u32
    requires count { length words.now ≡ words_of (shape_of plan.now.accepted) }
    requires other { other.0 < length plan.now.accepted.threads }
    requires known { thread.0 < length plan.now.accepted.threads }
    requires within { end ≤ (thread_def plan.now.accepted thread.0).log }
    requires fit { OutputsFit plan.now.accepted (board plan.now.accepted words.now) }
    requires rising { AreRising (board plan.now.accepted words.now) thread.0 end }
    requires other_rising { AreRising (board plan.now.accepted words.now) other.0 (committed (board plan.now.accepted words.now) other.0 header.outputs) }
    ensures { IsEnd (IsApart (board plan.now.accepted words.now) other.0 thread.0) end result }
{
    let count = outputs(plan, words, other);
    let mut from = 0;
    for n in 0..end {
        let sought = stamp(plan, words, thread, n);
        from = past_lower(plan, words, other, from, count, sought);
        if from < count && stamp(plan, words, other, from) == sought {
            return n;
        }
    }
    end
}

// The first output of a thread, from one on, whose stamp isn't lower than this one, or their number.
fn past_lower(
    plan: &Plan,
    words: &[u64],
    thread: ThreadId,
    from: u32,
    count: u32,
    sought: u64,
) -> u32
    requires count { length words.now ≡ words_of (shape_of plan.now.accepted) }
    requires known { thread.0 < length plan.now.accepted.threads }
    requires within { count ≤ (thread_def plan.now.accepted thread.0).log }
    requires begins { from ≤ count }
    ensures { IsPast (board plan.now.accepted words.now) thread.0 from count sought result }
{
    for k in from..count {
        if sought <= stamp(plan, words, thread, k) {
            return k;
        }
    }
    count
}
