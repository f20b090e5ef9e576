//! The section of the readings.

ghost use Rattle.std.specs.Prelude.{◌≡◌, ◌<◌, ◌≤◌, ◌^◌, length, drop, IfOk};
ghost use Rattle.ink_base.specs.Lines.{lines};
ghost use Rattle.ink_base.specs.Gives.{GivesJob};
ghost use Rattle.ink_base.specs.Suffix.{IsSuffix};
ghost use Rattle.ink_base.specs.TokenLines.{token_lines};
ghost use Rattle.ink_base.specs.Tokens.{AreTokens};
ghost use Rattle.power_trace.specs.Sensors.{sensors_in};

use crate::readings::Readings;
use ink_base::limits::TEXT_BYTES;
use ink_base::{JobAnswer, Token, Tokens};
use ink_text::{index_of, next_header, read_section, tokens_from};
use prog_check::Accepted;
use sqlite_items::Items;
use std::alloc::Global;

// The readings of each source, and the tokens from the next header on, which has to be that of the power trace.
#[tactic(auto, unfolding(crate::specs::Sensors::sensors_in))]
fn sensors<'a>(
    alloc: Global,
    text: &[u8],
    lines: u32,
    sources: usize,
    tokens: &'a [Token],
) -> Result<(Items<Items<u32>>, &'a [Token]), JobAnswer>
    requires { lines < 2 ^ 31 }
    ensures given { GivesJob (λ x. (x.0, token_lines text.now x.1.now)) result (sensors_in lines sources (token_lines text.now tokens.now)) }
    ensures suffix { IfOk result (λ x. IsSuffix x.1.now tokens.now) }
{
    let mut readings = Readings::new(alloc, sources)?;
    let rest = read_section(&mut readings, alloc, text, lines, tokens)?;
    next_header(text, lines, rest, b"[power]")?;
    Ok((readings.into_lists(), rest))
}

/// Reads the section `[sensors]` of a text of at most 4,194,304 bytes, by its tokens, from the index of the section's header on:
/// the readings of each source of the program, and the index of the header behind the section. Refused with its line:
/// a word behind the header, `UnknownWord`; a line that begins with no source, `UnknownWord`; a value that is no number, `BadNumber`,
/// or is above 4,294,967,295 or the 65,536th of its source, `OverLimit`; another header than `[power]`, `BadSection`; no header: `Missing`.
pub fn read_sensors(
    alloc: Global,
    text: &[u8],
    tokens: &Tokens,
    at: u32,
    program: &Accepted,
) -> Result<(Items<Items<u32>>, u32), JobAnswer>
    requires short { length text.now ≤ TEXT_BYTES }
    requires tokens { AreTokens text.now tokens.now.list.items tokens.now.lines }
    requires at { at ≤ length tokens.now.list.items }
    ensures given { GivesJob (λ x. (x.0, token_lines text.now (drop x.1 tokens.now.list.items))) result (sensors_in (length (lines text.now)) (length program.now.sources) (token_lines text.now (drop at tokens.now.list.items))) }
    ensures within { IfOk result (λ x. x.1 ≤ length tokens.now.list.items) }
{
    let sources = program.program().sources.len();
    let from = tokens_from(tokens, at);
    match sensors(alloc, text, tokens.lines, sources, from) {
        Ok((lists, rest)) => Ok((lists, index_of(tokens, rest))),
        Err(e) => Err(e),
    }
}
