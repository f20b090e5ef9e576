//! `station`: the boards of the jobs on the source are run at once, and the text of each run is written, in the order of the jobs.

ghost use Rattle.std.specs.Prelude.{◌≡◌, ◌<◌, ◌≤◌, ◌++◌, length, slice_index_or, IfOk, IsOk, OnOk};
ghost use Rattle.kernel_core.specs.declared.run_record.RunRecord.{RunRecord};
ghost use Rattle.std.specs.List.{All};
ghost use Rattle.ink_image.specs.Whole.{Answers};
ghost use Rattle.ink_modes.specs.Given.{HasBoards};
ghost use Rattle.ink_modes.specs.Run.{IsRunOf, run_text_of};
ghost use Rattle.ink_modes.specs.modes.Station.{Gives, Makes, boards_text, numbered};
ghost use Rattle.ink_modes.specs.modes.Station.{text as text_of};
ghost use Rattle.ink_modes.specs.kept.Told.{AreTold};

use crate::command::Allowed;
use crate::finish::Record;
use crate::given::Given;
use crate::making::Made;
use crate::report::report;
use ink_base::limits::TEXT_BYTES;
use ink_base::{JobAnswer, NoMemory};
use ink_report::Flags;
use ink_station::{read_station, station};
use ink_text::put_count;
use kernel_core::RunRecord;
use sqlite_items::Items;
use std::alloc::Global;
use std::thread::{Threads, map_indices};

/// It may show the journal and JSON.
pub const ALLOWED: Allowed = Allowed {
    journal: true,
    json: true,
    ..Allowed::NONE
};

/// The jobs of a station's text, or its first fault, as `read_station` refuses it.
pub fn given(alloc: Global, text: &[u8]) -> Result<Given, JobAnswer>
    requires { length text.now ≤ TEXT_BYTES }
    ensures given { Answers (Gives text.now) result }
    ensures boards { IfOk result HasBoards }
{
    match read_station(alloc, text) {
        Ok(jobs) => Ok(Given::Boards(jobs)),
        Err(answer) => Err(answer),
    }
}

/// The records of the whole runs of all jobs, in the order of the jobs, and their text. The boards run at once.
pub fn make<R: Threads + Sync>(
    alloc: Global,
    runtime: &R,
    flags: Flags,
    given: Given,
) -> Result<Made, NoMemory>
    requires { HasBoards given }
    ensures record { IfOk result (λ made. Makes given made.record) }
    ensures text { IfOk result (λ made. made.text.items ≡ text_of flags given made.record) }
{
    let records = Items::from_vec(station(alloc, runtime, given.into_boards())?);
    let text = boards_text(alloc, runtime, records.as_slice(), flags)?;
    Ok(Made {
        record: Record::Station(records),
        text,
    })
}

// The texts of boards, in order, numbered from 0 on.
fn boards_text<R: Threads + Sync>(
    alloc: Global,
    runtime: &R,
    records: &[RunRecord],
    flags: Flags,
) -> Result<Vec<u8>, NoMemory>
    requires { All (λ r. IsRunOf r.job r) records.now }
    ensures { IfOk result (λ text. text.items ≡ boards_text flags 0 records.now) }
{
    let told = told_at_once(alloc, runtime, records, flags)?;
    let mut text = Vec::new(alloc);
    for number in 0..told.len() {
        put_board(&mut text, number, &told[number])?;
    }
    Ok(text)
}

// The texts of the runs, which are made at once; none of a run where memory was refused for it.
fn told_at_once<R: Threads + Sync>(
    alloc: Global,
    runtime: &R,
    records: &[RunRecord],
    flags: Flags,
) -> Result<Vec<Result<Vec<u8>, NoMemory>>, NoMemory>
    requires { All (λ r. IsRunOf r.job r) records.now }
    ensures number { IfOk result (λ told. length told.items ≡ length records.now) }
    ensures each { IfOk result (λ told. AreTold flags records.now told.items) }
{
    let told = map_indices(
        runtime,
        alloc,
        records.len(),
        &|number| { told_of(alloc, records, number, flags) },
    )?;
    Ok(told)
}

// The text of one of the runs.
fn told_of(
    alloc: Global,
    records: &[RunRecord],
    number: usize,
    flags: Flags,
) -> Result<Vec<u8>, NoMemory>
    requires known { number < length records.now }
    requires runs { All (λ r. IsRunOf r.job r) records.now }
    ensures { IfOk result (λ told. (d : RunRecord) → told.items ≡ run_text_of (slice_index_or records.now number d) flags) }
{
    report(alloc, &records[number], flags)
}

// Appends the number of a board and the text of its run, if there was memory for it.
fn put_board(
    text: &mut Vec<u8>,
    number: usize,
    told: &Result<Vec<u8>, NoMemory>,
) -> Result<(), NoMemory>
    ensures text { OnOk result (IfOk told.now (λ run. text.new.items ≡ text.old.items ++ numbered number run.items)) }
    ensures made { OnOk result (IsOk told.now) }
{
    match told {
        Ok(run) => {
            put_count(text, b"board ", number as u64)?;
            text.push(b'\n')?;
            text.extend_from_slice(run.as_slice())?;
            Ok(())
        }
        Err(NoMemory) => Err(NoMemory),
    }
}
