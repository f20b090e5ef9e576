//! The text of a record.

ghost use Rattle.std.specs.Prelude.{◌≡◌, ◌++◌, ℕ, ◌<◌, ◌^◌, All, length, take, IfOk, OnOk};
ghost use Rattle.std.specs.List.{flat_map};
ghost use Rattle.job_parts.specs.Job.{IsJob, first_of};
ghost use Rattle.never_cut.specs.Journal.{after, IsLegal};
ghost use Rattle.never_cut.specs.Replaying.{model_of};
ghost use Rattle.never_cut.specs.Within.{HasRoom};
ghost use Rattle.ink_report.specs.Conditions.{FitsProgram, NamesPart};
ghost use Rattle.ink_report.specs.Report.{entries_part};
ghost use Rattle.ink_report.specs.Summary.{summary_of};
ghost use Rattle.ink_modes.specs.Run.{IsRunOf, run_text_of, entries_of};

use ink_base::{Entry, NoMemory};
use ink_report::{Flags, Summary, put_entries, put_head};
use job_parts::Job;
use kernel_core::{ChargeRecord, RunRecord};
use never_cut::{Entered, Model, Replaying};
use std::alloc::Global;
use task_isa::Program;

/// The text of the state after the record's journal: its outputs, the summary, and what is shown besides, as the flags say.
pub fn report(alloc: Global, run: &RunRecord, flags: Flags) -> Result<Vec<u8>, NoMemory>
    requires { IsRunOf run.now.job run.now }
    ensures { IfOk result (λ text. text.items ≡ run_text_of run.now flags) }
{
    let program = run.job.accepted();
    let charges = run.charges.as_slice();
    let model = state_after(alloc, &run.job, charges)?;
    let summary = summary_after(alloc, &run.job, &model, charges)?;
    let mut out = Vec::new(alloc);
    put_head(&mut out, program, model.outputs.as_slice(), &summary, flags)?;
    put_journal(&mut out, program.program(), charges, flags)?;
    Ok(out)
}

/// The state of the never-cut kernel after the entries of all charges.
pub fn state_after(alloc: Global, job: &Job, charges: &[ChargeRecord]) -> Result<Model, NoMemory>
    requires legal { IsLegal job.now.program job.now.readings (first_of job.now) (flat_map entries_of charges.now) }
    requires few { length (flat_map entries_of charges.now) < 2 ^ 32 }
    ensures state { IfOk result (λ m. m ≡ after job.now.program job.now.readings (first_of job.now) (flat_map entries_of charges.now)) }
    ensures job { IfOk result (λ _. IsJob job.now) }
{
    let mut state = first_state(alloc, job)?;
    for charge in charges {
        enter_all(&mut state, alloc, job, charge.entries.as_slice())?;
    }
    Ok(state.into_model())
}

// The state at which the run of a job begins.
fn first_state(alloc: Global, job: &Job) -> Result<Replaying, NoMemory>
    ensures state { IfOk result (λ state. model_of state ≡ first_of job.now) }
    ensures job { IfOk result (λ _. IsJob job.now) }
{
    match job.start() {
        None => Replaying::open(alloc, job.accepted().program()),
        Some(start) => Replaying::begin(alloc, &start.model),
    }
}

// Enters the entries of a charge.
fn enter_all(
    state: &mut Replaying,
    alloc: Global,
    job: &Job,
    entries: &[Entry],
) -> Result<(), NoMemory>
    requires legal { IsLegal job.now.program job.now.readings (model_of state.old) entries.now }
    requires room { (n : ℕ) → n < length entries.now → HasRoom job.now.program (after job.now.program job.now.readings (model_of state.old) (take n entries.now)) }
    ensures { OnOk result (model_of state.new ≡ after job.now.program job.now.readings (model_of state.old) entries.now) }
{
    for entry in entries {
        match state.enter(alloc, job.accepted(), job.readings(), *entry)? {
            Entered::Made => {}
            Entered::Illegal => unreachable!(),
        }
    }
    Ok(())
}

// The summary of the state after the entries of all charges.
fn summary_after(
    alloc: Global,
    job: &Job,
    model: &Model,
    charges: &[ChargeRecord],
) -> Result<Summary, NoMemory>
    requires fits { FitsProgram job.now.program model.now }
    requires few { length (flat_map entries_of charges.now) < 2 ^ 32 }
    ensures { IfOk result (λ summary. summary ≡ summary_of job.now.program model.now (flat_map entries_of charges.now) (length job.now.charges)) }
{
    let count = job.charges().len() as u32;
    let mut summary = Summary::begin(alloc, job.accepted(), model, count)?;
    for charge in charges {
        summary.count(charge.entries.as_slice());
    }
    Ok(summary)
}

// Appends the lines of the entries of all charges, where the journal is asked for.
fn put_journal(
    out: &mut Vec<u8>,
    program: &Program,
    charges: &[ChargeRecord],
    flags: Flags,
) -> Result<(), NoMemory>
    requires { All (NamesPart program.now) (flat_map entries_of charges.now) }
    ensures { OnOk result (out.new.items ≡ out.old.items ++ entries_part program.now (flat_map entries_of charges.now) flags) }
{
    if !flags.journal {
        return Ok(());
    }
    for charge in charges {
        put_entries(out, program, charge.entries.as_slice())?;
    }
    Ok(())
}
