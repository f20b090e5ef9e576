//! What a text gives to a mode.

ghost use Rattle.std.specs.Prelude.{◌≡◌, ◌≤◌, length, IfOk};
ghost use Rattle.ink_image.specs.Whole.{Answers, IsJobOf};
ghost use Rattle.ink_modes.specs.declared.given.Given.TheVariants as given;
ghost use Rattle.ink_modes.specs.Given.{Alone, IsAlone, HasClaim, HasScript, HasBoards};

use ink_base::JobAnswer;
use ink_base::limits::TEXT_BYTES;
use ink_image::whole_job;
use ink_radio::RadioEvent;
use ink_radio::limits::SCRIPT_LINES;
use ink_station::limits::BOARDS;
use power_trace::Job;
use sqlite_items::Items;
use std::alloc::Global;

/// What a text gives to a mode.
#[derive(Drop)]
pub enum Given {
    /// A job.
    Job(Job),
    /// A job, and the bytes of the claim behind it.
    Claimed(Job, Items<u8>),
    /// A job, and the events of the script behind it.
    Scripted(Job, Items<RadioEvent>),
    /// The jobs of a station's boards, in their order.
    Boards(Vec<Job>),
}

impl Given {
    /// The job, which stands alone.
    pub fn into_job(self) -> Job
        requires { IsAlone self }
        ensures { self ≡ given.Job result }
    {
        match self {
            Given::Job(job) => job,
            _ => unreachable!(),
        }
    }

    /// The job and the bytes of its claim.
    pub fn into_claimed(self) -> (Job, Items<u8>)
        requires { HasClaim self }
        ensures is { self ≡ given.Claimed result.0 result.1 }
        ensures short { length result.1 ≤ TEXT_BYTES }
    {
        match self {
            Given::Claimed(job, claim) => (job, claim),
            _ => unreachable!(),
        }
    }

    /// The job and the events of its script.
    pub fn into_scripted(self) -> (Job, Items<RadioEvent>)
        requires { HasScript self }
        ensures is { self ≡ given.Scripted result.0 result.1 }
        ensures short { length result.1 ≤ SCRIPT_LINES }
    {
        match self {
            Given::Scripted(job, script) => (job, script),
            _ => unreachable!(),
        }
    }

    /// The jobs of the boards.
    pub fn into_boards(self) -> Vec<Job>
        requires { HasBoards self }
        ensures is { self ≡ given.Boards result }
        ensures few { length result.items ≤ BOARDS }
    {
        match self {
            Given::Boards(jobs) => jobs,
            _ => unreachable!(),
        }
    }
}

/// The job of a text that may end with an image, or the first fault of the text.
pub fn job_alone(alloc: Global, text: &[u8]) -> Result<Given, JobAnswer>
    requires { length text.now ≤ TEXT_BYTES }
    ensures given { Answers (Alone (IsJobOf text.now)) result }
    ensures alone { IfOk result IsAlone }
{
    match whole_job(alloc, text) {
        Ok(job) => Ok(Given::Job(job)),
        Err(answer) => Err(answer),
    }
}
