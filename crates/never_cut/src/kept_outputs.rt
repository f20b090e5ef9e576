//! All outputs in order, and how many each thread has.

ghost use Rattle.std.specs.Prelude.{◌≡◌, ◌∷◌, ◌++◌, [], take, length, IfOk};
ghost use Rattle.never_cut.specs.Outputs.{Counts, outputs_in, stamped};

use ink_base::{NoMemory, Output, ThreadId};
use std::alloc::Global;

/// Outputs in order, and how many of them each thread has.
#[derive(Drop)]
pub(crate) struct KeptOutputs {
    pub list: Vec<Output>,
    pub counts: [u64; 256],
    ghost counted: { Counts counts list.items },
}

/// No outputs.
pub(crate) fn no_outputs(alloc: Global) -> KeptOutputs
    ensures { result.list.items ≡ [] }
{
    KeptOutputs {
        list: Vec::new(alloc),
        counts: [0; 256],
    }
}

/// These outputs, in their order.
pub(crate) fn keep_outputs(alloc: Global, outputs: &[Output]) -> Result<KeptOutputs, NoMemory>
    ensures { IfOk result (λ kept. kept.list.items ≡ outputs.now) }
{
    let mut kept = no_outputs(alloc);
    for output in outputs {
        put_one(&mut kept, *output)?;
    }
    Ok(kept)
}

/// How many outputs a thread has.
pub(crate) fn count_of(outputs: &KeptOutputs, thread: ThreadId) -> u64
    ensures { result ≡ length (outputs_in thread.0 outputs.now.list.items) }
{
    outputs.counts[usize::from(thread.0)]
}

fn put_one(outputs: &mut KeptOutputs, output: Output) -> Result<(), NoMemory>
    ensures { IfOk result (λ _. outputs.new.list.items ≡ outputs.old.list.items ++ output ∷ []) }
{
    outputs.list.push(output)?;
    outputs.counts[usize::from(output.thread.0)] += 1;
    Ok(())
}

/// Adds a thread's outputs of one commit.
pub(crate) fn put_all(
    outputs: &mut KeptOutputs,
    stamp: u64,
    thread: ThreadId,
    values: &[u32],
) -> Result<(), NoMemory>
    ensures { IfOk result (λ _. outputs.new.list.items ≡ outputs.old.list.items ++ stamped stamp thread.0 values.now) }
{
    for value in values {
        put_one(
            outputs,
            Output {
                stamp,
                thread,
                value: *value,
            },
        )?;
    }
    Ok(())
}
