//! Live boards of texts.

ghost use Rattle.std.specs.Prelude.{◌≡◌, None, IfOk};

use ink_base::JobAnswer;
use ink_base::limits::TEXT_BYTES;
use irq_source::Gate;
use live_account::LiveRecord;
use live_board::{LiveParts, live, prepare_live};
use power_trace::{Job, parse_job};
use std::alloc::{AllocError, Global};
use std::thread::Threads;

/// The text of these parts.
pub(crate) fn joined(alloc: Global, parts: &[&[u8]]) -> Result<Vec<u8>, AllocError> {
    let mut text = Vec::new(alloc);
    for part in parts {
        text.extend_from_slice(part)?;
    }
    Ok(text)
}

// The job of a text, which is none that is too long, and has no image.
fn job(alloc: Global, text: &[u8]) -> Result<Job, JobAnswer>
    ensures { IfOk result (λ job. job.start ≡ None) }
{
    if text.len() > TEXT_BYTES {
        return Err(JobAnswer::NoMemory);
    }
    let job = parse_job(alloc, text)?;
    match job.start() {
        None => Ok(job),
        Some(_) => Err(JobAnswer::NoMemory),
    }
}

/// The live board of a text, before its first charge.
pub(crate) fn prepared(alloc: Global, text: &[u8]) -> Result<LiveParts, JobAnswer> {
    Ok(prepare_live(alloc, job(alloc, text)?)?)
}

/// What the live board of a text leaves.
pub(crate) fn lived<R: Threads + Sync, G: Gate + Sync>(
    alloc: Global,
    runtime: &R,
    text: &[u8],
    gate: &G,
) -> Result<LiveRecord, JobAnswer> {
    Ok(live(alloc, runtime, job(alloc, text)?, gate)?)
}
