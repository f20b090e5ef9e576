//! The section of a program.

ghost use Rattle.std.specs.Prelude.{◌≡◌, ◌<◌, ◌≤◌, ◌^◌, length, drop, IfOk};
ghost use Rattle.ink_base.specs.Gives.{GivesJob};
ghost use Rattle.ink_base.specs.Suffix.{IsSuffix};
ghost use Rattle.ink_base.specs.TokenLines.{token_lines};
ghost use Rattle.ink_base.specs.Tokens.{AreTokens};
ghost use Rattle.task_asm.specs.Section.{draft_end, program_in, program_at, empty_draft};

use crate::finish::finish;
use ink_base::limits::TEXT_BYTES;
use ink_base::{JobAnswer, Token, Tokens};
use ink_text::{index_of, missing, next_header, next_number, read_section};
use sqlite_items::Items;
use std::alloc::Global;
use task_isa::{Lines, Program};
use task_lines::{Draft, Few};

fn empty_draft(alloc: Global) -> Draft
    ensures { result ≡ empty_draft }
{
    Draft {
        threads: Few::new(alloc),
        thread_lines: Items::new(alloc),
        sources: Items::new(alloc),
        pipes: Few::new(alloc),
        timers: Few::new(alloc),
        tasks: Few::new(alloc),
        current: None,
        count: 0,
    }
}

// The end of the section: no task is open, and the header behind it has to be that of the readings.
#[tactic(auto, unfolding(crate::specs::Section::draft_end))]
fn draft_end(draft: &Draft, text: &[u8], lines: u32, tokens: &[Token]) -> Result<(), JobAnswer>
    requires { lines < 2 ^ 31 }
    ensures { GivesJob (λ x. x) result (draft_end lines draft.now (token_lines text.now tokens.now)) }
{
    if draft.current.is_some() {
        return Err(JobAnswer::Fault(missing(lines, tokens)));
    }
    next_header(text, lines, tokens, b"[sensors]")
}

#[tactic(auto, unfolding(crate::specs::Section::program_in))]
fn program<'a>(
    alloc: Global,
    text: &[u8],
    lines: u32,
    tokens: &'a [Token],
) -> Result<(Program, Lines, &'a [Token]), JobAnswer>
    requires { lines < 2 ^ 31 }
    ensures given { GivesJob (λ x. (x.0, x.1, token_lines text.now x.2.now)) result (program_in lines (token_lines text.now tokens.now)) }
    ensures suffix { IfOk result (λ x. IsSuffix x.2.now tokens.now) }
{
    next_header(text, lines, tokens, b"[program]")?;
    let mut draft = empty_draft(alloc);
    let rest = read_section(&mut draft, alloc, text, lines, tokens)?;
    draft_end(&draft, text, lines, rest)?;
    let (program, parts) = finish(alloc, next_number(lines, tokens), draft)?;
    Ok((program, parts, rest))
}

/// Reads the section `[program]` at the beginning of a text of at most 4,194,304 bytes, by its tokens: the program, the lines of its
/// parts, and the index of the first token behind the section, which is that of the header `[sensors]`. The first fault of the section,
/// in the order of its lines and in a line from the left, is answered with its line; a text that ends within the section is
/// `Missing` at its number of lines plus 1.
pub fn read_program(
    alloc: Global,
    text: &[u8],
    tokens: &Tokens,
) -> Result<(Program, Lines, u32), JobAnswer>
    requires short { length text.now ≤ TEXT_BYTES }
    requires tokens { AreTokens text.now tokens.now.list.items tokens.now.lines }
    ensures given { GivesJob (λ x. (x.0, x.1, token_lines text.now (drop x.2 tokens.now.list.items))) result (program_at text.now) }
    ensures within { IfOk result (λ x. x.2 ≤ length tokens.now.list.items) }
{
    match program(alloc, text, tokens.lines, tokens.list.as_slice()) {
        Ok((program, lines, rest)) => Ok((program, lines, index_of(tokens, rest))),
        Err(e) => Err(e),
    }
}
