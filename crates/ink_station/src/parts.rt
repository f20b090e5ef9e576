//! The parts of a station's text.

ghost use Rattle.std.specs.Prelude.{◌≡◌, ◌≤◌, ◌<◌, ◌+◌, ◌-◌, ◌^◌, ℕ, List, length, IfOk};
ghost use Rattle.std.specs.List.{All};
ghost use Rattle.ink_base.specs.Checks.{words_of};
ghost use Rattle.ink_base.specs.Gives.{Gives, GivesJob, at_line};
ghost use Rattle.ink_base.specs.TokenLines.{token_lines};
ghost use Rattle.ink_station.specs.Parts.{begins_board, header_in, headers_in, headers_of, parts_between, parts_of, lines_len, job_text};
ghost use Rattle.ink_station.specs.kept.Within.{IsWithin};

use crate::limits::BOARDS;
use ink_base::checks::{end, word};
use ink_base::limits::TEXT_BYTES;
use ink_base::lines::split_line;
use ink_base::{Cause, JobAnswer, LineError, NoMemory, Token, job_tokens};
use ink_text::next_header;
use std::alloc::Global;

/// A part of the text: the line of its header, and the line before which it ends.
#[derive(Clone, Copy)]
pub(crate) struct Part {
    pub header: u32,
    pub stop: u32,
}

/// The parts of a text, or the first fault of its bytes or else of its headers.
pub(crate) fn parts_of(alloc: Global, text: &[u8]) -> Result<Vec<Part>, JobAnswer>
    requires { length text.now ≤ TEXT_BYTES }
    ensures given { GivesJob (λ parts. parts.items) result (parts_of text.now) }
    ensures within { IfOk result (λ parts. All (IsWithin text.now) parts.items) }
    ensures few { IfOk result (λ parts. length parts.items ≤ BOARDS) }
{
    let tokens = job_tokens(alloc, text)?;
    let headers = headers_of(alloc, text, tokens.lines, tokens.list.as_slice())?;
    Ok(parts_between(alloc, tokens.lines + 1, headers.as_slice())?)
}

// The lines of all headers among the lines of a text, whose number is given.
fn headers_of(
    alloc: Global,
    text: &[u8],
    lines: u32,
    tokens: &[Token],
) -> Result<Vec<u32>, JobAnswer>
    requires { lines < 2 ^ 31 }
    ensures { GivesJob (λ headers. headers.items) result (headers_of lines (token_lines text.now tokens.now)) }
{
    next_header(text, lines, tokens, b"[board]")?;
    headers_in(alloc, text, tokens)
}

// The lines of the headers that these lines have.
fn headers_in(alloc: Global, text: &[u8], tokens: &[Token]) -> Result<Vec<u32>, JobAnswer>
    ensures { GivesJob (λ headers. headers.items) result (headers_in 0 (token_lines text.now tokens.now)) }
{
    let mut headers = Vec::new(alloc);
    let mut rest = tokens;
    while !rest.is_empty() {
        let (line, words, after) = split_line(rest);
        if begins_board(text, words) {
            judged_header(text, line, words, headers.len())?;
            headers.push(line)?;
        }
        rest = after;
    }
    Ok(headers)
}

// Whether a line of these words is the header of a board.
fn begins_board(text: &[u8], words: &[Token]) -> bool
    ensures { result ≡ begins_board (words_of text.now words.now) }
{
    match words {
        [] => false,
        [first, ..] => word(text, first) == b"[board]".as_slice(),
    }
}

// The header of this line behind so many others.
fn judged_header(text: &[u8], line: u32, words: &[Token], before: usize) -> Result<(), JobAnswer>
    ensures { GivesJob (λ x. x) result (at_line line (header_in before (words_of text.now words.now))) }
{
    match header(text, words, before) {
        Ok(()) => Ok(()),
        Err(e) => Err(e.at(line)),
    }
}

// A header behind so many others.
#[tactic(auto, unfolding(ink_text::specs::Section::header_end))]
fn header(text: &[u8], words: &[Token], before: usize) -> Result<(), LineError>
    ensures { Gives (λ x. x) result (header_in before (words_of text.now words.now)) }
{
    if before >= BOARDS {
        return Err(LineError::Fault(Cause::OverLimit));
    }
    match words {
        [] => Ok(()),
        [_, rest @ ..] => end(text, rest),
    }
}

// The parts behind the headers at these lines; the last one ends before the line of this number.
fn parts_between(alloc: Global, end: u32, headers: &[u32]) -> Result<Vec<Part>, NoMemory>
    ensures { IfOk result (λ parts. parts.items ≡ parts_between end headers.now) }
{
    let mut parts = Vec::new(alloc);
    for n in 0..headers.len() {
        let stop = if n + 1 < headers.len() {
            headers[n + 1]
        } else {
            end
        };
        parts.push(Part {
            header: headers[n],
            stop,
        })?;
    }
    Ok(parts)
}

/// The text of a part's job, with an empty line in place of each line before it.
pub(crate) fn job_text(alloc: Global, text: &[u8], part: Part) -> Result<Vec<u8>, NoMemory>
    requires short { length text.now ≤ TEXT_BYTES }
    requires within { IsWithin text.now part }
    ensures text { IfOk result (λ job. job.items ≡ job_text text.now part) }
    ensures short { IfOk result (λ job. length job.items ≤ TEXT_BYTES) }
{
    let mut job = Vec::new(alloc);
    job.resize(part.header as usize, b'\n')?;
    let start = lines_len(text, part.header);
    let stop = lines_len(text, part.stop - 1);
    let lines = &text[start..stop];
    job.extend_from_slice(lines)?;
    Ok(job)
}

// How many bytes the first so many lines have, with the line feeds that end them.
fn lines_len(text: &[u8], count: u32) -> usize
    ensures { result ≡ lines_len count text.now }
{
    let mut left = count;
    for n in 0..text.len() {
        if left == 0 {
            return n;
        }
        if text[n] == b'\n' {
            left -= 1;
        }
    }
    text.len()
}
