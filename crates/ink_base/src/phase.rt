//! The first phase of reading a job.

ghost use Rattle.std.specs.Prelude.{◌≡◌, ◌≤◌, length, IfOk};
ghost use Rattle.ink_base.specs.Gives.{GivesJob};
ghost use Rattle.ink_base.specs.Tokens.{AreTokens, bytes_in, line_number};

use crate::fault::{Cause, JobAnswer, JobFault};
use crate::limits::TEXT_BYTES;
use crate::split::split_tokens;
use crate::token::{TextAnswer, Tokens};
use std::alloc::Global;

fn line_number(text: &[u8], offset: usize) -> u32
    requires short { length text.now ≤ TEXT_BYTES }
    requires inside { offset ≤ length text.now }
    ensures { result ≡ line_number text.now offset }
{
    let before = text[..offset].iter().filter(|b| **b == b'\n').count();
    before as u32 + 1
}

/// The tokens of a text of at most 4,194,304 bytes, or the fault of its first byte that isn't allowed: `BadByte` at its line.
pub fn job_tokens(alloc: Global, text: &[u8]) -> Result<Tokens, JobAnswer>
    requires { length text.now ≤ TEXT_BYTES }
    ensures given { GivesJob (λ _. tt) result (bytes_in text.now) }
    ensures tokens { IfOk result (λ tokens. AreTokens text.now tokens.list.items tokens.lines) }
{
    match split_tokens(alloc, text) {
        Ok(tokens) => Ok(tokens),
        Err(TextAnswer::NoMemory) => Err(JobAnswer::NoMemory),
        Err(TextAnswer::NotAscii { offset }) => Err(JobAnswer::Fault(JobFault {
            line: line_number(text, offset as usize),
            cause: Cause::BadByte,
        })),
    }
}
