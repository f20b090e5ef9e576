//! `sweep`: the board of the job on the source is run once for each number of turns of its first charge, with this charge cut behind them, and
//! a line of numbers is written for each run.

ghost use Rattle.std.specs.Prelude.{◌≡◌, ◌≤◌, length, IfOk};
ghost use Rattle.ink_base.specs.Gives.{GivesJob};
ghost use Rattle.ink_image.specs.Whole.{Answers};
ghost use Rattle.ink_modes.specs.Given.{Alone, IsAlone};
ghost use Rattle.ink_modes.specs.modes.Sweep.{Gives, Makes, past_at};
ghost use Rattle.ink_modes.specs.modes.Sweep.{text as text_of};

use crate::command::Allowed;
use crate::finish::Record;
use crate::given::Given;
use crate::making::Made;
use cut_sweep::{line_past, sweep};
use ink_base::limits::TEXT_BYTES;
use ink_base::{Cause, JobAnswer, JobFault, NoMemory};
use ink_image::whole_job;
use ink_report::{Flags, sweep_text};
use power_trace::{Job, Tails, parse_with_lines};
use std::alloc::Global;

/// It has no flags.
pub const ALLOWED: Allowed = Allowed::NONE;

/// The job of a text, or the fault with which a sweep refuses the text.
pub fn given(alloc: Global, text: &[u8]) -> Result<Given, JobAnswer>
    requires { length text.now ≤ TEXT_BYTES }
    ensures given { Answers (Alone (Gives text.now)) result }
    ensures alone { IfOk result IsAlone }
{
    match job_of(alloc, text) {
        Ok(job) => Ok(Given::Job(job)),
        Err(answer) => Err(answer),
    }
}

// The job of a text that may end with an image, or its first fault, as `whole_job` gives it. A job without a fault is `OverLimit` where its
// charges list more than 8,192 turns: at the line of the charge with which they are more.
fn job_of(alloc: Global, text: &[u8]) -> Result<Job, JobAnswer>
    requires { length text.now ≤ TEXT_BYTES }
    ensures { Answers (Gives text.now) result }
{
    let past = past_in(alloc, text)?;
    let job = whole_job(alloc, text)?;
    match past {
        None => Ok(job),
        Some(line) => Err(JobAnswer::Fault(JobFault {
            line,
            cause: Cause::OverLimit,
        })),
    }
}

// The line of the charge with which the charges of a text list more turns than a sweep may have; none where they list no more.
#[tactic(auto, unfolding(crate::specs::modes::Sweep::past_at))]
fn past_in(alloc: Global, text: &[u8]) -> Result<Option<u32>, JobAnswer>
    requires { length text.now ≤ TEXT_BYTES }
    ensures { GivesJob (λ line. line) result (past_at text.now) }
{
    let tails = Tails {
        image1: true,
        image2: true,
        ..Tails::none()
    };
    let (parts, _tokens, _end) = parse_with_lines(alloc, text, tails)?;
    Ok(line_past(parts.job.charges(), parts.charge_lines.as_slice()))
}

/// The table of the runs of a job, and its text.
pub fn make(alloc: Global, _flags: Flags, given: Given) -> Result<Made, NoMemory>
    requires { IsAlone given }
    ensures record { IfOk result (λ made. Makes given made.record) }
    ensures text { IfOk result (λ made. made.text.items ≡ text_of _flags given made.record) }
{
    let table = sweep(alloc, &given.into_job())?;
    let text = sweep_text(alloc, &table)?;
    Ok(Made {
        record: Record::Sweep(table),
        text,
    })
}
