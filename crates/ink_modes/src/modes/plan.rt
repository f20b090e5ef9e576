//! `plan`: a bound on what each task of the program of the job on the source may cost is written.

ghost use Rattle.std.specs.Prelude.{◌≡◌, ◌≤◌, length, IfOk};
ghost use Rattle.ink_image.specs.Whole.{Answers};
ghost use Rattle.ink_modes.specs.Given.{Alone, IsAlone};
ghost use Rattle.ink_modes.specs.modes.Plan.{Gives, Makes, text};

use crate::command::Allowed;
use crate::finish::Record;
use crate::given::Given;
use crate::making::Made;
use ink_base::limits::TEXT_BYTES;
use ink_base::{JobAnswer, NoMemory};
use ink_plan::{make_plan, plan_text};
use ink_report::Flags;
use power_trace::parse_job;
use std::alloc::Global;

/// It has no flags.
pub const ALLOWED: Allowed = Allowed::NONE;

/// The job of a text that ends with its charges, or the first fault of the text, as `parse_job` refuses it: the header of an image is
/// `BadSection`.
pub fn given(alloc: Global, text: &[u8]) -> Result<Given, JobAnswer>
    requires { length text.now ≤ TEXT_BYTES }
    ensures given { Answers (Alone (Gives text.now)) result }
    ensures alone { IfOk result IsAlone }
{
    match parse_job(alloc, text) {
        Ok(job) => Ok(Given::Job(job)),
        Err(answer) => Err(answer),
    }
}

/// The plan of a job's program, and its text.
pub fn make(alloc: Global, _flags: Flags, given: Given) -> Result<Made, NoMemory>
    requires { IsAlone given }
    ensures record { IfOk result (λ made. Makes given made.record) }
    ensures text { IfOk result (λ made. made.text.items ≡ text _flags given made.record) }
{
    let job = given.into_job();
    let plan = make_plan(alloc, job.accepted())?;
    let text = plan_text(alloc, job.accepted().program(), &plan)?;
    Ok(Made {
        record: Record::Plan(plan),
        text,
    })
}
