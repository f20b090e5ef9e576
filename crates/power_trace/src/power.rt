//! The section of the power trace.

ghost use Rattle.std.specs.Prelude.{◌≡◌, ◌<◌, ◌≤◌, ◌^◌, length, drop, IfOk};
ghost use Rattle.ink_base.specs.Checks.{words_of};
ghost use Rattle.ink_base.specs.Lines.{lines};
ghost use Rattle.ink_base.specs.Gives.{GivesJob, at_line};
ghost use Rattle.ink_base.specs.Suffix.{IsSuffix};
ghost use Rattle.ink_base.specs.TokenLines.{token_lines};
ghost use Rattle.ink_base.specs.Tokens.{AreTokens};
ghost use Rattle.power_trace.specs.Tails.{tail_header};
ghost use Rattle.power_trace.specs.Power.{power_end, power_in, last_power_in};

use crate::charges::Charges;
use crate::tails::{Tails, tail_header};
use ink_base::limits::TEXT_BYTES;
use ink_base::lines::split_line;
use ink_base::{JobAnswer, Token, Tokens};
use ink_text::{index_of, missing, read_section, tokens_from};
use job_parts::Charge;
use prog_check::Accepted;
use sqlite_items::Items;
use std::alloc::Global;

fn judged_tail(
    tails: Tails,
    charges: usize,
    text: &[u8],
    line: u32,
    words: &[Token],
) -> Result<(), JobAnswer>
    ensures { GivesJob (λ x. x) result (at_line line (tail_header tails charges (words_of text.now words.now))) }
{
    match tail_header(tails, charges, text, words) {
        Ok(()) => Ok(()),
        Err(e) => Err(e.at(line)),
    }
}

// The end of the section behind so many charges.
#[tactic(auto, unfolding(crate::specs::Power::power_end))]
fn power_end(
    tails: Tails,
    charges: usize,
    text: &[u8],
    lines: u32,
    tokens: &[Token],
) -> Result<(), JobAnswer>
    requires { lines < 2 ^ 31 }
    ensures { GivesJob (λ x. x) result (power_end lines tails charges (token_lines text.now tokens.now)) }
{
    if !tokens.is_empty() {
        let (line, words, _rest) = split_line(tokens);
        return judged_tail(tails, charges, text, line, words);
    }
    if charges == 0 {
        return Err(JobAnswer::Fault(missing(lines, tokens)));
    }
    Ok(())
}

// The charges, and the tokens from the next header on.
#[tactic(auto, unfolding(crate::specs::Power::power_in))]
fn power<'a>(
    alloc: Global,
    text: &[u8],
    tails: Tails,
    lines: u32,
    sources: u8,
    tokens: &'a [Token],
) -> Result<(Charges, &'a [Token]), JobAnswer>
    requires { lines < 2 ^ 31 }
    ensures given { GivesJob (λ x. (x.0, token_lines text.now x.1.now)) result (power_in lines tails sources (token_lines text.now tokens.now)) }
    ensures suffix { IfOk result (λ x. IsSuffix x.1.now tokens.now) }
{
    let mut charges = Charges::none(alloc, sources);
    let rest = read_section(&mut charges, alloc, text, lines, tokens)?;
    power_end(tails, charges.list.len(), text, lines, rest)?;
    Ok((charges, rest))
}

/// Reads the section `[power]` as `read_power` does, where some sections may follow it: the charges with their lines, and the index of the
/// header behind the section, or the number of tokens. The header of a section that may not follow is `BadSection`, another one before the
/// first charge `Missing`, and a word behind it `UnknownWord`.
pub fn read_charges(
    alloc: Global,
    text: &[u8],
    tokens: &Tokens,
    at: u32,
    tails: Tails,
    program: &Accepted,
) -> Result<(Charges, u32), JobAnswer>
    requires short { length text.now ≤ TEXT_BYTES }
    requires tokens { AreTokens text.now tokens.now.list.items tokens.now.lines }
    requires at { at ≤ length tokens.now.list.items }
    ensures given { GivesJob (λ x. (x.0, token_lines text.now (drop x.1 tokens.now.list.items))) result (power_in (length (lines text.now)) tails (length program.now.sources) (token_lines text.now (drop at tokens.now.list.items))) }
    ensures within { IfOk result (λ x. x.1 ≤ length tokens.now.list.items) }
{
    let sources = program.program().sources.len() as u8;
    let from = tokens_from(tokens, at);
    match power(alloc, text, tails, tokens.lines, sources, from) {
        Ok((charges, rest)) => Ok((charges, index_of(tokens, rest))),
        Err(e) => Err(e),
    }
}

/// Reads the section `[power]` of a text of at most 4,194,304 bytes, by its tokens, from the index of the section's header on:
/// the charges. Refused with its line: a word behind the header, `UnknownWord`; a line that begins with another word than `charge`,
/// `UnknownWord`; the 4,097th charge, `OverLimit`; no number of ticks, `Missing`; ticks or a count that is no number, `BadNumber`;
/// ticks above 2,147,483,647, or a count or a sum of all counts above 4,194,304, `OverLimit`; an actor that isn't on the board,
/// `UnknownWord`; a further header, `BadSection`; no charge: `Missing`.
pub fn read_power(
    alloc: Global,
    text: &[u8],
    tokens: &Tokens,
    at: u32,
    program: &Accepted,
) -> Result<Items<Charge>, JobAnswer>
    requires short { length text.now ≤ TEXT_BYTES }
    requires tokens { AreTokens text.now tokens.now.list.items tokens.now.lines }
    requires at { at ≤ length tokens.now.list.items }
    ensures { GivesJob (λ list. list) result (last_power_in (length (lines text.now)) (length program.now.sources) (token_lines text.now (drop at tokens.now.list.items))) }
{
    let (charges, _end) = read_charges(alloc, text, tokens, at, Tails::none(), program)?;
    Ok(charges.list)
}
