//! The plan of a small program, and the words of its board.

ghost use Rattle.std.specs.Prelude.{◌≡◌, ◌↔◌, IfOk, IsTrue, length};
ghost use Rattle.ink_layout.specs.Shape.{shape_of, words_of};

use ink_base::limits::TEXT_BYTES;
use ink_base::{JobAnswer, NoMemory};
use ink_layout::{Plan, first_image};
use power_trace::parse_job;
use std::alloc::Global;

// Thread a has a source, and its task adds each reading to the thread's state and puts the sum out.
const SUMMING: &[u8] =
    b"[program]\nthread a priority 1 queue 2 state 1 log 8\nsource a\ntask sum thread a limit 100\nli r1 0\nld r2 r1\nev r3\nadd r2 r2 r3\nst r2 r1\nout r2\ndone\nend\n[sensors]\nS0 7\n[power]\ncharge 0\n";

/// The addresses of the thread's commit word and of the clock, and that of the slot of position 1. The board has 134 words.
pub(crate) const COMMIT: usize = 7;

pub(crate) const SECOND_SLOT: usize = 130;

pub(crate) const CLOCK: usize = 132;

/// The plan of the program.
pub(crate) fn plan(alloc: Global) -> Result<Plan, JobAnswer> {
    plan_of(alloc, SUMMING)
}

// The plan of the program of a job's text.
fn plan_of(alloc: Global, text: &[u8]) -> Result<Plan, JobAnswer> {
    if text.len() > TEXT_BYTES {
        return Err(JobAnswer::NoMemory);
    }
    let (accepted, _, _, _) = parse_job(alloc, text)?.into_parts();
    Ok(Plan::new(alloc, accepted)?)
}

/// The words of its board before the first charge, with one of them changed.
pub(crate) fn words_with(
    alloc: Global,
    plan: &Plan,
    address: usize,
    word: u64,
) -> Result<Vec<u64>, NoMemory>
    ensures { IfOk result (λ words. length words.items ≡ words_of (shape_of plan.now.accepted)) }
{
    // The layout is the program's own.
    let _program = plan.program();
    let mut words = first_image(alloc, &plan.accepted, &plan.layout)?.into_words();
    if address < words.len() {
        words[address] = word;
    }
    Ok(words)
}

/// Whether so many readings are listed as the program has sources.
pub(crate) fn has_sources(plan: &Plan, listed: &[u32]) -> bool
    ensures { IsTrue result ↔ (length listed.now ≡ length plan.now.accepted.sources) }
{
    listed.len() == plan.program().sources.len()
}
