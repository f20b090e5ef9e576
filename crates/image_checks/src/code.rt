//! Code words and commit words: the first two checks of an image.

ghost use Rattle.std.specs.Prelude.{IfNone, IfSome, ◌≡◌, ◌<◌, ◌≤◌, ◌↔◌, IsTrue, length};
ghost use Rattle.ink_base.specs.declared.limits.TheConstants as limits;
ghost use Rattle.fram_words.specs.Steps.{place_of};
ghost use Rattle.prog_check.specs.Lookup.{thread_def, task_def};
ghost use Rattle.ink_layout.specs.Shape.{pages_of, shape_of, words_of};
ghost use Rattle.never_cut.specs.Image.{IsCodeWord, IsCommitWord};
ghost use Rattle.image_checks.specs.Board.{board};
ghost use Rattle.image_checks.specs.Failing.{CodeHolds, CommitWordsHold, FindsFault, IsFirstCodeFault, IsFirstCommitFault};

use crate::blocks::page_count;
use fram_words::Place;
use image_told::word_at;
use ink_base::{TaskId, ThreadId};
use ink_layout::Plan;
use task_isa::{Instr, encode};

/// The first code word that isn't the program's.
pub fn failing_code(plan: &Plan, words: &[u64]) -> Option<Place>
    requires { length words.now ≡ words_of (shape_of plan.now.accepted) }
    ensures none { IfNone result (CodeHolds plan.now.accepted (board plan.now.accepted words.now)) }
    ensures first { IfSome result (λ place. IsFirstCodeFault plan.now.accepted (board plan.now.accepted words.now) (place_of place)) }
{
    for x in 0..plan.program().tasks.len() {
        let task = TaskId(x as u16);
        if let Some(offset) = failing_offset(plan, words, task) {
            return Some(Place::Code { task, offset });
        }
    }
    None
}

// The offset of the first code word of a task that isn't the program's.
fn failing_offset(plan: &Plan, words: &[u64], task: TaskId) -> Option<u32>
    requires count { length words.now ≡ words_of (shape_of plan.now.accepted) }
    requires known { task.0 < length plan.now.accepted.tasks }
    ensures { FindsFault (IsCodeWord plan.now.accepted (board plan.now.accepted words.now) task.0) (length (task_def plan.now.accepted task.0).code) result }
{
    let code = code_of(plan, task);
    for n in 0..code.len() {
        let offset = n as u32;
        if word_at(plan, words, Place::Code { task, offset }) != encode(code[n]) {
            return Some(offset);
        }
    }
    None
}

// The code of a task.
fn code_of(plan: &Plan, task: TaskId) -> &[Instr]
    requires { task.0 < length plan.now.accepted.tasks }
    ensures code { result.now ≡ (task_def plan.now.accepted task.0).code }
    ensures few { length result.now ≤ limits.INSTRUCTIONS }
{
    plan.program().tasks.as_slice()[usize::from(task.0)]
        .code
        .as_slice()
}

/// The first commit word with a bit at or above the number of its thread's pages.
pub fn failing_commit_word(plan: &Plan, words: &[u64]) -> Option<Place>
    requires { length words.now ≡ words_of (shape_of plan.now.accepted) }
    ensures none { IfNone result (CommitWordsHold plan.now.accepted (board plan.now.accepted words.now)) }
    ensures first { IfSome result (λ place. IsFirstCommitFault plan.now.accepted (board plan.now.accepted words.now) (place_of place)) }
{
    for t in 0..plan.program().threads.len() {
        let thread = ThreadId(t as u8);
        if !is_commit_word(plan, words, thread) {
            return Some(Place::Commit { thread });
        }
    }
    None
}

// Whether a thread's commit word has no bit at or above the number of its pages.
fn is_commit_word(plan: &Plan, words: &[u64], thread: ThreadId) -> bool
    requires count { length words.now ≡ words_of (shape_of plan.now.accepted) }
    requires known { thread.0 < length plan.now.accepted.threads }
    ensures { IsTrue result ↔ IsCommitWord plan.now.accepted (board plan.now.accepted words.now) thread.0 }
{
    word_at(plan, words, Place::Commit { thread }) < 1u64 << page_count(plan, thread)
}
