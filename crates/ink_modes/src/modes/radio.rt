//! `radio`: the board of the job is run, the script behind the job is played over the outputs of the run, and what the base has then is written.

ghost use Rattle.std.specs.Prelude.{◌≡◌, ◌≤◌, length, IfOk};
ghost use Rattle.ink_image.specs.Whole.{Answers};
ghost use Rattle.ink_radio.specs.Keeps.{EveryPrefixKeeps};
ghost use Rattle.ink_radio.specs.Radio.{played, record_of};
ghost use Rattle.ink_modes.specs.Given.{HasScript};
ghost use Rattle.ink_modes.specs.Run.{IsRunOf};
ghost use Rattle.ink_modes.specs.modes.Radio.{Gives, Makes, outputs_of, radio_tails};
ghost use Rattle.ink_modes.specs.modes.Radio.{text as text_of};

use crate::command::Allowed;
use crate::finish::Record;
use crate::given::Given;
use crate::making::Made;
use crate::modes::run::record_of;
use crate::report::state_after;
use crate::text::script_in;
use ink_base::limits::TEXT_BYTES;
use ink_base::{JobAnswer, NoMemory};
use ink_image::job_before;
use ink_radio::limits::SCRIPT_LINES;
use ink_radio::{RadioEvent, RadioRecord, radio};
use ink_report::{Flags, radio_text};
use kernel_core::RunRecord;
use power_trace::Tails;
use std::alloc::Global;

/// It has no flags.
pub const ALLOWED: Allowed = Allowed::NONE;

/// The job before a script, and the script's events. Refused as `job_before` refuses, and then as `read_script` does: a text without a line
/// `[radio]` is `Missing` at the number of its lines plus 1.
pub fn given(alloc: Global, text: &[u8]) -> Result<Given, JobAnswer>
    requires { length text.now ≤ TEXT_BYTES }
    ensures given { Answers (Gives text.now) result }
    ensures script { IfOk result HasScript }
{
    let (job, _behind) = job_before(alloc, text, radio_tails())?;
    let script = script_in(alloc, text)?;
    Ok(Given::Scripted(job, script))
}

// A script may follow the charges, or an image.
fn radio_tails() -> Tails
    ensures { result ≡ radio_tails }
{
    Tails {
        image1: true,
        image2: true,
        radio: true,
        ..Tails::none()
    }
}

/// The record of the run of a job with what the script made of its outputs, and the text of that.
pub fn make(alloc: Global, _flags: Flags, given: Given) -> Result<Made, NoMemory>
    requires { HasScript given }
    ensures record { IfOk result (λ made. Makes given made.record) }
    ensures text { IfOk result (λ made. made.text.items ≡ text_of _flags given made.record) }
{
    let (job, script) = given.into_scripted();
    let run = record_of(alloc, job)?;
    let told = told_of(alloc, &run, script.as_slice())?;
    let text = radio_text(alloc, run.job.accepted().program(), &told)?;
    Ok(Made {
        record: Record::Radio(run, told),
        text,
    })
}

// What a script makes of the outputs of a run.
fn told_of(alloc: Global, run: &RunRecord, script: &[RadioEvent]) -> Result<RadioRecord, NoMemory>
    requires run { IsRunOf run.now.job run.now }
    requires script { length script.now ≤ SCRIPT_LINES }
    ensures told { IfOk result (λ told. told ≡ record_of (played (outputs_of run.now) script.now)) }
    ensures keeps { IfOk result (λ _. EveryPrefixKeeps (outputs_of run.now) script.now) }
{
    let state = state_after(alloc, &run.job, run.charges.as_slice())?;
    radio(alloc, state.outputs.as_slice(), script)
}
