//! The job of a text.

ghost use Rattle.std.specs.Prelude.{◌≡◌, ◌≤◌, length, drop, IfOk};
ghost use Rattle.ink_base.specs.Gives.{GivesJob};
ghost use Rattle.ink_base.specs.TokenLines.{token_lines};
ghost use Rattle.ink_base.specs.Tokens.{AreTokens};
ghost use Rattle.power_trace.specs.Parse.{checked, parts_at, whole_at, job_at};

use crate::power::read_charges;
use crate::sensors::read_sensors;
use crate::tails::Tails;
use ink_base::limits::TEXT_BYTES;
use ink_base::{JobAnswer, Tokens, job_tokens};
use job_parts::Job;
use prog_check::{Accepted, check};
use sqlite_items::Items;
use std::alloc::Global;
use task_asm::read_program;
use task_isa::{Lines, Program};

/// A job, and the line at which each of its charges stands.
#[derive(Drop)]
pub struct Parts {
    pub job: Job,
    pub charge_lines: Items<u32>,
}

fn accept(program: Program, lines: &Lines) -> Result<Accepted, JobAnswer>
    ensures { GivesJob (λ a. a) result (checked program lines.now) }
{
    check(program, lines)
}

/// Reads the sections `[program]`, `[sensors]` and `[power]` of a text of at most 4,194,304 bytes, behind which one of these sections may
/// follow: the job with the lines of its charges, the tokens of the whole text, and the index of the header token that ends `[power]`, or the
/// number of tokens.
///
/// Refused with the first fault of the text, that of the first phase which refuses it. The phases are the bytes, the section `[program]`, the
/// check of the program, the section `[sensors]` and the section `[power]`, at whose end the header of a section that may not follow is
/// `BadSection`, another one before the first charge `Missing`, and a word behind it `UnknownWord`. What follows the header isn't judged.
#[tactic(auto, unfolding(crate::specs::Parse::parts_at))]
pub fn parse_with_lines(
    alloc: Global,
    text: &[u8],
    tails: Tails,
) -> Result<(Parts, Tokens, u32), JobAnswer>
    requires { length text.now ≤ TEXT_BYTES }
    ensures given { GivesJob (λ x. (x.0, token_lines text.now (drop x.2 x.1.list.items))) result (parts_at tails text.now) }
    ensures tokens { IfOk result (λ x. AreTokens text.now x.1.list.items x.1.lines) }
    ensures within { IfOk result (λ x. x.2 ≤ length x.1.list.items) }
    ensures lines { IfOk result (λ x. length x.0.charge_lines ≡ length x.0.job.charges) }
{
    let tokens = job_tokens(alloc, text)?;
    let (program, lines, at) = read_program(alloc, text, &tokens)?;
    let accepted = accept(program, &lines)?;
    let (readings, at) = read_sensors(alloc, text, &tokens, at, &accepted)?;
    let (charges, at) = read_charges(alloc, text, &tokens, at, tails, &accepted)?;
    let parts = Parts {
        job: Job::new(accepted, readings, charges.list, None),
        charge_lines: charges.lines,
    };
    Ok((parts, tokens, at))
}

/// The same without the lines of the charges: the job, the tokens of the whole text, and the index of the header token that ends `[power]`, or
/// the number of tokens. Refused as `parse_with_lines` refuses.
#[tactic(auto, unfolding(crate::specs::Parse::whole_at))]
pub fn parse_parts(
    alloc: Global,
    text: &[u8],
    tails: Tails,
) -> Result<(Job, Tokens, u32), JobAnswer>
    requires { length text.now ≤ TEXT_BYTES }
    ensures given { GivesJob (λ x. (x.0, token_lines text.now (drop x.2 x.1.list.items))) result (whole_at tails text.now) }
    ensures tokens { IfOk result (λ x. AreTokens text.now x.1.list.items x.1.lines) }
    ensures within { IfOk result (λ x. x.2 ≤ length x.1.list.items) }
{
    let (parts, tokens, at) = parse_with_lines(alloc, text, tails)?;
    Ok((parts.job, tokens, at))
}

/// The job of a text of at most 4,194,304 bytes that ends with its section `[power]`, or the first fault of the text, as `parse_parts` gives
/// it where nothing may follow.
#[tactic(auto, unfolding(crate::specs::Parse::job_at))]
pub fn parse_job(alloc: Global, text: &[u8]) -> Result<Job, JobAnswer>
    requires { length text.now ≤ TEXT_BYTES }
    ensures { GivesJob (λ job. job) result (job_at text.now) }
{
    let (job, _tokens, _end) = parse_parts(alloc, text, Tails::none())?;
    Ok(job)
}
