//! The jobs of a station's text.

ghost use Rattle.std.specs.Prelude.{◌≡◌, ◌≤◌, ◌+◌, length, IfOk};
ghost use Rattle.std.specs.List.{All};
ghost use Rattle.ink_base.specs.Gives.{GivesJob};
ghost use Rattle.job_parts.specs.Job.{item_turns, charge_turns};
ghost use Rattle.ink_station.specs.Jobs.{AreJobsOf, turns_behind, turns_in, turns_of, IsStation, Answers};
ghost use Rattle.ink_station.specs.kept.Within.{IsWithin};

use crate::limits::BOARDS;
use crate::parts::{Part, job_text, parts_of};
use ink_base::limits::{TEXT_BYTES, TURNS};
use ink_base::{Cause, JobAnswer, JobFault};
use ink_image::whole_job;
use job_parts::{Charge, Item, Job};
use power_trace::{Tails, parse_with_lines};
use std::alloc::Global;

/// The jobs of the text of a station, which has at most 4,194,304 bytes: at most 16, each behind a line `[board]`. A job may end with an
/// image.
///
/// Refused with its line by the first of these that applies. A byte that isn't allowed is `BadByte`. A first line with words that doesn't
/// begin with `[board]` is `BadSection`, and where there is no line with words, `Missing` at the number of lines plus 1. Of the lines that
/// begin with `[board]` the 17th is `OverLimit`, and one before it with a further word `UnknownWord`. Then the jobs in order are refused as
/// `whole_job` refuses; a job ends before the next such line. At last the charge with which all charges up to there list more than
/// 4,194,304 turns is `OverLimit`.
pub fn read_station(alloc: Global, text: &[u8]) -> Result<Vec<Job>, JobAnswer>
    requires { length text.now ≤ TEXT_BYTES }
    ensures jobs { Answers (λ jobs. jobs.items) (IsStation text.now) result }
    ensures few { IfOk result (λ jobs. length jobs.items ≤ BOARDS) }
{
    let parts = parts_of(alloc, text)?;
    let jobs = jobs_of(alloc, text, parts.as_slice())?;
    turns_of(alloc, text, parts.as_slice())?;
    Ok(jobs)
}

// The job of each part.
fn jobs_of(alloc: Global, text: &[u8], parts: &[Part]) -> Result<Vec<Job>, JobAnswer>
    requires short { length text.now ≤ TEXT_BYTES }
    requires within { All (IsWithin text.now) parts.now }
    ensures { Answers (λ jobs. jobs.items) (AreJobsOf text.now parts.now) result }
{
    let mut jobs = Vec::new(alloc);
    for part in parts {
        let job = job_text(alloc, text, *part)?;
        jobs.push(whole_job(alloc, job.as_slice())?)?;
    }
    Ok(jobs)
}

// The turns of all parts together.
fn turns_of(alloc: Global, text: &[u8], parts: &[Part]) -> Result<u32, JobAnswer>
    requires short { length text.now ≤ TEXT_BYTES }
    requires within { All (IsWithin text.now) parts.now }
    ensures { GivesJob (λ turns. turns) result (turns_of 0 text.now parts.now) }
{
    let mut turns = 0;
    for part in parts {
        let job = job_text(alloc, text, *part)?;
        turns = turns_in(alloc, turns, job.as_slice())?;
    }
    Ok(turns)
}

// The turns behind the charges of a job's text, of so many before them.
fn turns_in(alloc: Global, turns: u32, text: &[u8]) -> Result<u32, JobAnswer>
    requires short { length text.now ≤ TEXT_BYTES }
    requires few { turns ≤ TURNS }
    ensures turns { GivesJob (λ turns. turns) result (turns_in turns text.now) }
    ensures few { IfOk result (λ turns. turns ≤ TURNS) }
{
    let tails = Tails {
        image1: true,
        image2: true,
        ..Tails::none()
    };
    let (parts, _tokens, _end) = parse_with_lines(alloc, text, tails)?;
    turns_behind(turns, parts.job.charges(), parts.charge_lines.as_slice())
}

// The turns behind these charges, which stand at these lines, of so many before them.
fn turns_behind(before: u32, charges: &[Charge], lines: &[u32]) -> Result<u32, JobAnswer>
    requires lines { length lines.now ≡ length charges.now }
    requires few { before ≤ TURNS }
    requires each { charge_turns charges.now ≤ TURNS }
    ensures turns { GivesJob (λ turns. turns) result (turns_behind before charges.now lines.now) }
    ensures few { IfOk result (λ turns. turns ≤ TURNS) }
{
    let mut turns = before;
    for n in 0..charges.len() {
        turns += turns_listed(charges[n].items.as_slice());
        if turns > TURNS {
            return Err(JobAnswer::Fault(JobFault {
                line: lines[n],
                cause: Cause::OverLimit,
            }));
        }
    }
    Ok(turns)
}

// The turns that items list.
fn turns_listed(items: &[Item]) -> u32
    requires { item_turns items.now ≤ TURNS }
    ensures { result ≡ item_turns items.now }
{
    let mut turns = 0;
    for item in items {
        turns += item.count;
    }
    turns
}
