//! Programs of texts.

use ink_base::limits::TEXT_BYTES;
use ink_base::{JobAnswer, job_tokens};
use prog_check::{Accepted, check};
use std::alloc::Global;
use task_asm::read_program;

/// The program of a text, none of which is too long to be one.
pub(crate) fn accepted(alloc: Global, text: &[u8]) -> Result<Accepted, JobAnswer> {
    if text.len() > TEXT_BYTES {
        return Err(JobAnswer::NoMemory);
    }
    let tokens = job_tokens(alloc, text)?;
    let (program, lines, _) = read_program(alloc, text, &tokens)?;
    Ok(check(program, &lines)?)
}
