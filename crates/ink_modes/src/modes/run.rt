//! `run`: the board of the job is run, and the text of the run is written, with the image that it leaves where that is asked for.

ghost use Rattle.std.specs.Prelude.{◌≡◌, ◌++◌, IfOk, OnOk};
ghost use Rattle.ink_modes.specs.Given.{IsAlone};
ghost use Rattle.ink_modes.specs.Run.{IsRunOf};
ghost use Rattle.ink_modes.specs.modes.Run.{Makes, image_part, text};

use crate::command::Allowed;
use crate::finish::Record;
use crate::given::Given;
use crate::making::Made;
use crate::report::report;
use ink_base::NoMemory;
use ink_image::write_image;
use ink_report::Flags;
use kernel_core::{RunRecord, prepare};
use power_trace::Job;
use std::alloc::Global;

/// It may show the journal, JSON, the bounds of a charge and the image.
pub const ALLOWED: Allowed = Allowed {
    journal: true,
    json: true,
    bounds: true,
    image: true,
    ..Allowed::NONE
};

/// The record of the whole run of a job, and its text.
pub fn make(alloc: Global, flags: Flags, given: Given) -> Result<Made, NoMemory>
    requires { IsAlone given }
    ensures record { IfOk result (λ made. Makes given made.record) }
    ensures text { IfOk result (λ made. made.text.items ≡ text flags given made.record) }
{
    let record = record_of(alloc, given.into_job())?;
    let mut text = report(alloc, &record, flags)?;
    put_image(alloc, &mut text, &record, flags)?;
    Ok(Made {
        record: Record::Run(record),
        text,
    })
}

/// The record of the whole run of a job.
pub fn record_of(alloc: Global, job: Job) -> Result<RunRecord, NoMemory>
    ensures { IfOk result (IsRunOf job) }
{
    let mut core = prepare(alloc, job)?;
    core.run();
    Ok(core.into_record())
}

// Appends the image of the words that the run left, where it is asked for.
fn put_image(
    alloc: Global,
    text: &mut Vec<u8>,
    run: &RunRecord,
    flags: Flags,
) -> Result<(), NoMemory>
    ensures { OnOk result (text.new.items ≡ text.old.items ++ image_part run.now flags) }
{
    if flags.image {
        let image = write_image(alloc, run.words.as_slice())?;
        text.extend_from_slice(image.as_slice())?;
    }
    Ok(())
}
