//! The headers of sections.

ghost use Rattle.std.specs.Prelude.{◌≡◌, ◌<◌, ◌^◌, ℕ, List};
ghost use Rattle.ink_base.specs.Checks.{words_of};
ghost use Rattle.ink_base.specs.Gives.{Gives, GivesJob, at_line};
ghost use Rattle.ink_base.specs.TokenLines.{token_lines};
ghost use Rattle.ink_text.specs.Section.{is_header, header_in, header_end, next_number, missing, next_header};

use ink_base::checks::{end, word};
use ink_base::lines::split_line;
use ink_base::{Cause, JobAnswer, JobFault, LineError, Token};

/// Whether a line of these words is a header: whether it begins with a bracket.
pub fn is_header(text: &[u8], words: &[Token]) -> bool
    ensures { result ≡ is_header (words_of text.now words.now) }
{
    match words {
        [] => false,
        [first, ..] => match word(text, first) {
            [] => false,
            [b, ..] => *b == b'[',
        },
    }
}

#[tactic(auto, unfolding(crate::specs::Section::header_in))]
fn header(text: &[u8], words: &[Token], expected: &[u8]) -> Result<(), LineError>
    ensures { Gives (λ x. x) result (header_in expected.now (words_of text.now words.now)) }
{
    match words {
        [] => Err(LineError::Fault(Cause::BadSection)),
        [first, ..] => {
            if word(text, first) == expected {
                Ok(())
            } else {
                Err(LineError::Fault(Cause::BadSection))
            }
        }
    }
}

fn judged_header(text: &[u8], line: u32, words: &[Token], expected: &[u8]) -> Result<(), JobAnswer>
    ensures { GivesJob (λ x. x) result (at_line line (header_in expected.now (words_of text.now words.now))) }
{
    match header(text, words, expected) {
        Ok(()) => Ok(()),
        Err(e) => Err(e.at(line)),
    }
}

#[tactic(auto, unfolding(crate::specs::Section::header_end))]
fn header_end(text: &[u8], words: &[Token]) -> Result<(), LineError>
    ensures { Gives (λ x. x) result (header_end (words_of text.now words.now)) }
{
    match words {
        [] => Ok(()),
        [_, rest @ ..] => end(text, rest),
    }
}

// The end of the line of the header with this number.
pub fn judged_end(text: &[u8], line: u32, words: &[Token]) -> Result<(), JobAnswer>
    ensures { GivesJob (λ x. x) result (at_line line (header_end (words_of text.now words.now))) }
{
    match header_end(text, words) {
        Ok(()) => Ok(()),
        Err(e) => Err(e.at(line)),
    }
}

/// The number of the next line, of a text of so many lines by its tokens from there on; one more than the text has lines where it ends there.
pub fn next_number(lines: u32, tokens: &[Token]) -> u32
    requires { lines < 2 ^ 31 }
    ensures { (text : List ℕ) → result ≡ next_number lines (token_lines text tokens.now) }
{
    if tokens.is_empty() {
        return lines + 1;
    }
    let (line, _words, _rest) = split_line(tokens);
    line
}

/// What has to stand in the next line isn't there: `Missing` at that line, or at the number of lines plus 1 where the text ends there.
pub fn missing(lines: u32, tokens: &[Token]) -> JobFault
    requires { lines < 2 ^ 31 }
    ensures { (text : List ℕ) → result ≡ missing lines (token_lines text tokens.now) }
{
    JobFault {
        line: next_number(lines, tokens),
        cause: Cause::Missing,
    }
}

/// Judges the next line, which has to begin with this header. Refused with its line where it begins with another word, `BadSection`, and
/// where the text ends there: `Missing` at the number of lines plus 1. What follows the header in its line is judged by `read_section`.
#[tactic(auto, unfolding(crate::specs::Section::next_header))]
pub fn next_header(
    text: &[u8],
    lines: u32,
    tokens: &[Token],
    expected: &[u8],
) -> Result<(), JobAnswer>
    requires { lines < 2 ^ 31 }
    ensures { GivesJob (λ x. x) result (next_header lines expected.now (token_lines text.now tokens.now)) }
{
    if tokens.is_empty() {
        return Err(JobAnswer::Fault(missing(lines, tokens)));
    }
    let (line, words, _rest) = split_line(tokens);
    judged_header(text, line, words, expected)
}
