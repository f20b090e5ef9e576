//! The lines of a section.

ghost use Rattle.std.specs.Prelude.{◌≡◌, ◌<◌, ◌^◌, ℕ, List, Result, IfOk, OnOk};
ghost use Rattle.ink_base.specs.declared.fault.Cause.{Cause as Reason};
ghost use Rattle.ink_base.specs.Checks.{words_of};
ghost use Rattle.ink_base.specs.Gives.{Leaves, LeavesJob, GivesJob, at_line};
ghost use Rattle.ink_base.specs.Suffix.{IsSuffix};
ghost use Rattle.ink_base.specs.TokenLines.{token_lines};
ghost use Rattle.ink_text.specs.Section.{lines_in, section_in};

use crate::headers::{is_header, judged_end, missing};
use ink_base::lines::split_line;
use ink_base::{JobAnswer, LineError, Token};
use std::alloc::Global;

/// What the lines of a section add to: a section is an `impl` of this. `line` is what a line adds, by its number and its words;
/// `keeps` is what holds between two lines.
pub trait Section {
    ghost line: { Self → ℕ → List (List ℕ) → Result Self Reason };

    ghost keeps: { Self → Type 0 };

    /// Adds the line of this number. Refused by its first fault from the left; nothing is then said of the section.
    fn read_line(
        &mut self,
        alloc: Global,
        text: &[u8],
        number: u32,
        words: &[Token],
    ) -> Result<(), LineError>
        requires { keeps self.old }
        ensures given { Leaves result self.new (line self.old number (words_of text.now words.now)) }
        ensures kept { OnOk result (keeps self.new) };
}

fn judged_line<S: Section>(
    section: &mut S,
    alloc: Global,
    text: &[u8],
    number: u32,
    words: &[Token],
) -> Result<(), JobAnswer>
    requires { S.keeps section.old }
    ensures given { LeavesJob result section.new (at_line number (S.line section.old number (words_of text.now words.now))) }
    ensures kept { OnOk result (S.keeps section.new) }
{
    match section.read_line(alloc, text, number, words) {
        Ok(()) => Ok(()),
        Err(e) => Err(e.at(number)),
    }
}

/// Adds the lines up to the next header, and gives the tokens from there on. Refused by the first fault of the first line that has one,
/// with its line; nothing is then said of the section.
pub fn read_lines<'a, S: Section>(
    section: &mut S,
    alloc: Global,
    text: &[u8],
    tokens: &'a [Token],
) -> Result<&'a [Token], JobAnswer>
    requires { S.keeps section.old }
    ensures given { GivesJob (λ rest. (section.new, token_lines text.now rest.now)) result (lines_in S.line section.old (token_lines text.now tokens.now)) }
    ensures suffix { IfOk result (λ rest. IsSuffix rest.now tokens.now) }
    ensures kept { IfOk result (λ _. S.keeps section.new) }
{
    let mut rest = tokens;
    while !rest.is_empty() {
        let (number, words, after) = split_line(rest);
        if is_header(text, words) {
            return Ok(rest);
        }
        if let Err(e) = judged_line(section, alloc, text, number, words) {
            return Err(e);
        }
        rest = after;
    }
    Ok(rest)
}

/// Reads a section from its header on, in a text of so many lines: adds its lines, and gives the tokens from the next header on.
/// Refused with its line: a word behind the header, `UnknownWord`, and then as `read_lines` refuses; where no header is there:
/// `Missing` at the number of lines plus 1.
#[tactic(auto, unfolding(crate::specs::Section::section_in))]
pub fn read_section<'a, S: Section>(
    section: &mut S,
    alloc: Global,
    text: &[u8],
    lines: u32,
    tokens: &'a [Token],
) -> Result<&'a [Token], JobAnswer>
    requires few { lines < 2 ^ 31 }
    requires kept { S.keeps section.old }
    ensures given { GivesJob (λ rest. (section.new, token_lines text.now rest.now)) result (section_in lines S.line section.old (token_lines text.now tokens.now)) }
    ensures suffix { IfOk result (λ rest. IsSuffix rest.now tokens.now) }
    ensures kept { IfOk result (λ _. S.keeps section.new) }
{
    if tokens.is_empty() {
        return Err(JobAnswer::Fault(missing(lines, tokens)));
    }
    let (number, words, rest) = split_line(tokens);
    judged_end(text, number, words)?;
    read_lines(section, alloc, text, rest)
}
