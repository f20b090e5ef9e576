//! How a call of the program ends.

use ink_audit::Verdict;
use ink_base::Status;
use ink_plan::EnergyPlan;
use ink_radio::RadioRecord;
use ink_report::SweepTable;
use kernel_core::RunRecord;
use prog_check::Accepted;
use sqlite_items::Items;

/// What a mode leaves behind.
#[derive(Drop)]
pub enum Record {
    /// The record of the board that was run.
    Run(RunRecord),
    /// The table of the runs of a job that was cut at each of its turns.
    Sweep(SweepTable),
    /// The program that was printed.
    Print(Accepted),
    /// What is said of a claim.
    Audit(Verdict),
    /// The record of the board that was run, and what a script made of its outputs.
    Radio(RunRecord, RadioRecord),
    /// The record of each board that was run, in the order of the jobs.
    Station(Items<RunRecord>),
    /// The energy plan of the program.
    Plan(EnergyPlan),
}

/// The status of a call, and the record of its mode; none where nothing was made of a job.
#[derive(Drop)]
pub struct Finish {
    pub status: Status,
    pub kept: Option<Record>,
}
