//! The job of a text behind which a last section may stand, a claim or a script, and where the bytes of that section begin.

ghost use Rattle.std.specs.Prelude.{◌≡◌, ◌≤◌, ◌&&◌, false, length, IfOk, IfSome};
ghost use Rattle.ink_base.specs.Checks.{words_of};
ghost use Rattle.ink_base.specs.Gives.{Gives, GivesJob};
ghost use Rattle.ink_base.specs.TokenLines.{token_lines};
ghost use Rattle.ink_text.specs.Section.{header_end};
ghost use Rattle.ink_image.specs.Before.{IsJobBefore, IsJudgedBefore, IsMadeBefore, behind_line, header_alone, is_last, last_line, last_tails};
ghost use Rattle.ink_image.specs.Reading.{section_entries};
ghost use Rattle.ink_image.specs.Whole.{Answers};

use crate::bytes::line_end;
use crate::claim::judged_text;
use crate::form::{Form, form_of};
use crate::imaged::{fault, job_at};
use ink_base::checks::{end, word};
use ink_base::limits::TEXT_BYTES;
use ink_base::lines::split_line;
use ink_base::{Cause, JobAnswer, LineError, Token};
use ink_text::{is_header, tokens_from};
use job_parts::Job;
use power_trace::{Tails, parse_parts};
use std::alloc::Global;

/// The job of a text of at most 4,194,304 bytes before its last section, and the offset of the first byte behind the line of that section's
/// header: none exactly where no such header stands behind the charges or the image.
///
/// Which sections may follow the charges is said by `tails`, which never allow both a claim and a script. An image may stand between the
/// charges and the last section, and is judged as `whole_job` judges it. The last section isn't read. Where it may be a claim, the first line
/// that begins with `[claim]` ends the text that is judged, and the bytes behind it are free; where it may be a script, the bytes of the whole
/// text are judged first.
///
/// Refused up to the end of `[power]` as `parse_parts` refuses. Then the header that ends an image is `BadSection` where it may not stand
/// there, and `UnknownWord` where a word is left over behind it; and the image is judged.
pub fn job_before(alloc: Global, text: &[u8], tails: Tails) -> Result<(Job, Option<u32>), JobAnswer>
    requires size { length text.now ≤ TEXT_BYTES }
    requires one { (tails.claim && tails.radio) ≡ false }
    ensures told { Answers (IsJobBefore tails text.now) result }
    ensures within { IfOk result (λ x. IfSome x.1 (λ at. at ≤ length text.now)) }
{
    let judged = judged_text(text, tails);
    let (job, tokens, end) = parse_parts(alloc, judged, tails)?;
    made_before(alloc, judged, tails, job, tokens_from(&tokens, end))
}

// What these tokens behind the charges make of the job before them.
fn made_before(
    alloc: Global,
    text: &[u8],
    tails: Tails,
    job: Job,
    tokens: &[Token],
) -> Result<(Job, Option<u32>), JobAnswer>
    requires { length text.now ≤ TEXT_BYTES }
    ensures { Answers (IsMadeBefore tails text.now job (token_lines text.now tokens.now)) result }
{
    if tokens.is_empty() {
        return Ok((job, None));
    }
    let (line, header, section) = split_line(tokens);
    if is_last(text, tails, header) {
        return Ok((job, Some(line_end(text, line))));
    }
    judged_before(
        alloc,
        text,
        tails,
        job,
        form_of(text, header),
        line,
        section,
    )
}

// The job with the image of this form behind a header at this line, once the header behind the image is judged, and where the last section begins.
fn judged_before(
    alloc: Global,
    text: &[u8],
    tails: Tails,
    job: Job,
    form: Form,
    header: u32,
    section: &[Token],
) -> Result<(Job, Option<u32>), JobAnswer>
    requires { length text.now ≤ TEXT_BYTES }
    ensures { Answers (IsJudgedBefore text.now (last_line tails (token_lines text.now section.now)) job form header (section_entries (token_lines text.now section.now))) result }
{
    let last = last_line(text, tails, section)?;
    let job = job_at(alloc, text, job, form, header, section)?;
    Ok((job, behind_line(text, last)))
}

// The offset of the first byte behind this line.
fn behind_line(text: &[u8], line: Option<u32>) -> Option<u32>
    requires { length text.now ≤ TEXT_BYTES }
    ensures { result ≡ behind_line text.now line }
{
    match line {
        None => None,
        Some(number) => Some(line_end(text, number)),
    }
}

// The line of the last section's header among these behind the header of an image. Another header is refused.
#[tactic(auto, unfolding(crate::specs::Before::last_line))]
fn last_line(text: &[u8], tails: Tails, tokens: &[Token]) -> Result<Option<u32>, JobAnswer>
    ensures { GivesJob (λ line. line) result (last_line tails (token_lines text.now tokens.now)) }
{
    let mut rest = tokens;
    'lines: while !rest.is_empty() {
        let (line, words, after) = split_line(rest);
        if is_last(text, tails, words) {
            return alone(text, line, words);
        }
        if is_header(text, words) {
            return Err(fault(line, Cause::BadSection));
        }
        rest = after;
    }
    Ok(None)
}

// The header of this line is that of a section that may stand last.
fn is_last(text: &[u8], tails: Tails, words: &[Token]) -> bool
    ensures { result ≡ is_last tails (words_of text.now words.now) }
{
    match words {
        [] => false,
        [header, ..] => last_tails(tails).allows(word(text, header)),
    }
}

// The sections that may stand last: all but the images.
fn last_tails(tails: Tails) -> Tails
    ensures { result ≡ last_tails tails }
{
    Tails {
        image1: false,
        image2: false,
        ..tails
    }
}

// The number of a header's line, in which the header has to stand alone.
fn alone(text: &[u8], line: u32, words: &[Token]) -> Result<Option<u32>, JobAnswer>
    ensures { GivesJob (λ last. last) result (header_alone line (words_of text.now words.now)) }
{
    match header_end(text, words) {
        Ok(()) => Ok(Some(line)),
        Err(e) => Err(e.at(line)),
    }
}

#[tactic(auto, unfolding(ink_text::specs::Section::header_end))]
fn header_end(text: &[u8], words: &[Token]) -> Result<(), LineError>
    ensures { Gives (λ x. x) result (header_end (words_of text.now words.now)) }
{
    match words {
        [] => Ok(()),
        [_, rest @ ..] => end(text, rest),
    }
}
