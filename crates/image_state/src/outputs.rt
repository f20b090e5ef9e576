//! The outputs that an image tells.

ghost use Rattle.std.specs.Prelude.{◌≡◌, ◌<◌, ◌≤◌, ◌++◌, length, IfOk};
ghost use Rattle.fram_words.specs.Header as header;
ghost use Rattle.prog_check.specs.Lookup.{thread_def};
ghost use Rattle.thread_state.specs.Pages.{committed};
ghost use Rattle.image_state.specs.Words.{by_place};
ghost use Rattle.image_state.specs.kept.Told.{AreInOrder, IsImageOf, outputs_until, told_output, told_outputs};

use fram_words::{Header, Place, read_output};
use image_told::{header_word, word_at};
use ink_base::{NoMemory, Output, ThreadId};
use ink_layout::Plan;
use std::alloc::Global;

/// The outputs of all threads in the order of their stamps, those of one stamp in the order of their log.
#[tactic(auto, using(crate::proofs::Each::until_more))]
pub(crate) fn outputs_told(
    alloc: Global,
    plan: &Plan,
    words: &[u64],
) -> Result<Vec<Output>, NoMemory>
    requires { IsImageOf plan.now.accepted words.now }
    ensures { IfOk result (λ outputs.
        AreInOrder (outputs_until (by_place plan.now.accepted words.now) (length plan.now.accepted.threads)) outputs.items) }
{
    let mut outputs = Vec::new(alloc);
    for t in 0..plan.program().threads.len() {
        put_outputs(&mut outputs, plan, words, ThreadId(t as u8))?;
    }
    in_order(outputs)
}

// Adds the outputs of a thread, as they stand in its log.
fn put_outputs(
    outputs: &mut Vec<Output>,
    plan: &Plan,
    words: &[u64],
    thread: ThreadId,
) -> Result<(), NoMemory>
    requires image { IsImageOf plan.now.accepted words.now }
    requires known { thread.0 < length plan.now.accepted.threads }
    ensures { IfOk result (λ _. outputs.new.items ≡ outputs.old.items ++ told_outputs (by_place plan.now.accepted words.now) thread.0) }
{
    for index in 0..count_told(plan, words, thread) {
        outputs.push(output_told(plan, words, thread, index))?;
    }
    Ok(())
}

// How many outputs a thread has; they fit its log.
fn count_told(plan: &Plan, words: &[u64], thread: ThreadId) -> u32
    requires image { IsImageOf plan.now.accepted words.now }
    requires known { thread.0 < length plan.now.accepted.threads }
    ensures count { result ≡ committed (by_place plan.now.accepted words.now) thread.0 header.outputs }
    ensures fits { result ≤ (thread_def plan.now.accepted thread.0).log }
{
    // The program is accepted, so its logs are short.
    let _program = plan.program();
    header_word(plan, words, thread, Header::Outputs) as u32
}

// The output at an index of a thread's log.
fn output_told(plan: &Plan, words: &[u64], thread: ThreadId, index: u32) -> Output
    requires image { IsImageOf plan.now.accepted words.now }
    requires known { thread.0 < length plan.now.accepted.threads }
    requires within { index < (thread_def plan.now.accepted thread.0).log }
    ensures { result ≡ told_output (by_place plan.now.accepted words.now) thread.0 index }
{
    read_output(thread, word_at(plan, words, Place::Log { thread, index }))
}

// These outputs in the order of their stamps.
fn in_order(outputs: Vec<Output>) -> Result<Vec<Output>, NoMemory>
    ensures { IfOk result (λ sorted. AreInOrder outputs.items sorted.items) }
{
    let mut sorted = outputs;
    sorted.sort_by_key(|output| output.stamp)?;
    Ok(sorted)
}
