//! The verdict on a claim.

ghost use Rattle.std.specs.Prelude.{◌≡◌, ◌+◌, ◌-◌, ◌<◌, ◌^◌, length, IfOk, MatchResult};
ghost use Rattle.never_cut.specs.Journal.{after};
ghost use Rattle.never_cut.specs.Replay.{TellsIllegal};
ghost use Rattle.job_parts.specs.Job.{first_of};
ghost use Rattle.ink_audit.specs.Verdicts.{IsLegalIn, IsVerdict};
ghost use Rattle.ink_audit.specs.declared.verdict.Verdict.TheVariants.{Yes, No};
ghost use Rattle.ink_audit.specs.kept.Told.{IllegalAt, Objects};

use crate::claim::{entries_of, journal_of};
use crate::comparing::compare;
use crate::objection::Objection;
use crate::verdict::Verdict;
use ink_base::{Entry, NoMemory};
use ink_report::{Flags, run_text};
use job_parts::Job;
use never_cut::{Model, ReplayFault, replay, replay_from};
use std::alloc::Global;

/// What the text of a run shows besides outputs and summary: its journal.
const WITH_JOURNAL: Flags = Flags {
    journal: true,
    json: false,
    bounds: false,
    image: false,
    seed: None,
};

/// Whether a claim of fewer than 2^32 - 1 bytes is the text that a run of the job prints with a legal journal. No line of it, a line of its
/// journal that isn't an entry's, an entry that isn't legal in its place, or a line that isn't that of the text of its journal is told by its
/// number, the first of these that there is. Out of memory may be answered at any time.
pub fn audit(alloc: Global, job: &Job, claim: &[u8]) -> Result<Verdict, NoMemory>
    requires { length claim.now < 2 ^ 32 - 1 }
    ensures { IfOk result (IsVerdict job.now claim.now) }
{
    match judge(alloc, job, claim) {
        Ok(()) => Ok(Verdict::Yes),
        Err(Objection::Line(line)) => Ok(Verdict::No { line }),
        Err(Objection::NoMemory) => Err(NoMemory),
    }
}

fn judge(alloc: Global, job: &Job, claim: &[u8]) -> Result<(), Objection>
    requires { length claim.now < 2 ^ 32 - 1 }
    ensures { MatchResult result (λ _. IsVerdict job.now claim.now Yes) (Objects (λ line. IsVerdict job.now claim.now (No line))) }
{
    let journal = journal_of(claim)?;
    let entries = entries_of(alloc, job.accepted(), journal)?;
    let entries = entries.as_slice();
    let model = state_after(alloc, job, entries, journal.first)?;
    let charges = job.charges().len() as u32;
    let text = run_text(
        alloc,
        job.accepted(),
        &model,
        entries,
        charges,
        WITH_JOURNAL,
    )?;
    compare(claim, text.as_slice())
}

// The state after these entries, the first of which stands in this line. The line of the first that isn't legal in its place is to blame.
fn state_after(alloc: Global, job: &Job, entries: &[Entry], first: u32) -> Result<Model, Objection>
    requires { first + length entries.now < 2 ^ 32 }
    ensures { MatchResult result (λ m. IsLegalIn job.now entries.now × (m ≡ after job.now.program job.now.readings (first_of job.now) entries.now)) (Objects (IllegalAt job.now entries.now first)) }
{
    match replayed(alloc, job, entries) {
        Ok(model) => Ok(model),
        Err(ReplayFault::Illegal(n)) => Err(Objection::Line(first + n)),
        Err(ReplayFault::NoMemory) => Err(Objection::NoMemory),
    }
}

// The state after these entries, from the one at which the run of the job begins.
fn replayed(alloc: Global, job: &Job, entries: &[Entry]) -> Result<Model, ReplayFault>
    requires { length entries.now < 2 ^ 32 }
    ensures { MatchResult result (λ m. IsLegalIn job.now entries.now × (m ≡ after job.now.program job.now.readings (first_of job.now) entries.now)) (TellsIllegal job.now.program job.now.readings (first_of job.now) entries.now) }
{
    match job.start() {
        None => replay(alloc, job.accepted(), job.readings(), entries),
        Some(start) => replay_from(alloc, &start.model, job.accepted(), job.readings(), entries),
    }
}
