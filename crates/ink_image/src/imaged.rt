//! The job with the image that stands behind its charges.

ghost use Rattle.std.specs.Prelude.{◌≡◌, ℕ, List, length, map, IfOk};
ghost use Rattle.ink_base.specs.TokenLines.{token_lines};
ghost use Rattle.ink_base.specs.Tokens.{entry_of};
ghost use Rattle.ink_base.specs.declared.fault.JobAnswer.TheVariants as answers;
ghost use Rattle.ink_image.specs.Image.{IsReady};
ghost use Rattle.ink_image.specs.Reading.{section_entries};
ghost use Rattle.ink_image.specs.Whole.{listed_of, fault_at, job_from, IsJobAt, IsWithin, Answers};

use crate::form::Form;
use crate::image::{ImageAnswer, section_start};
use crate::settled::{behind_settled, listed_of};
use ink_base::{Cause, JobAnswer, JobFault, NoMemory, Token};
use job_parts::{Job, Start};
use std::alloc::Global;

/// The job with the image of this form behind a header at this line. The image ends at the next header or with the tokens.
pub fn job_at(
    alloc: Global,
    text: &[u8],
    job: Job,
    form: Form,
    header: u32,
    section: &[Token],
) -> Result<Job, JobAnswer>
    ensures { Answers (IsJobAt job form header (section_entries (token_lines text.now section.now))) result }
{
    let listed = listed_of(alloc, &job)?;
    match section_start(
        alloc,
        form,
        text,
        section,
        job.accepted(),
        listed.as_slice(),
    ) {
        Ok(start) => Ok(job_from(alloc, job, start)?),
        Err(e) => Err(fault_at(header, section, e)),
    }
}

// The job with its start.
fn job_from(alloc: Global, job: Job, start: Start) -> Result<Job, NoMemory>
    requires { IsReady job.program (listed_of job) start }
    ensures { IfOk result (λ whole. whole ≡ job_from job start) }
{
    let (accepted, readings, charges, _none) = job.into_parts();
    let readings = behind_settled(alloc, start.model.sources.as_slice(), readings.as_slice())?;
    Ok(Job::new(accepted, readings, charges, Some(start)))
}

// The fault of a section behind a header at this line, or want of memory.
fn fault_at(header: u32, section: &[Token], answer: ImageAnswer) -> JobAnswer
    requires { IsWithin (length section.now) answer }
    ensures { (text : List ℕ) → result ≡ fault_at header (map (entry_of text) section.now) answer }
{
    match answer {
        ImageAnswer::BadWord { line } => fault(line, Cause::BadWord),
        ImageAnswer::WrongShape => fault(header, Cause::WrongShape),
        ImageAnswer::NotStanding { addr } => fault(section[addr as usize].line, Cause::NotStanding),
        ImageAnswer::Worn => fault(header, Cause::Worn),
        ImageAnswer::NoMemory => JobAnswer::NoMemory,
    }
}

/// A fault of this line, as an answer.
pub fn fault(line: u32, cause: Cause) -> JobAnswer
    ensures { result ≡ answers.Fault (record { line = line; cause = cause }) }
{
    JobAnswer::Fault(JobFault { line, cause })
}
