//! The state after a journal.

ghost use Rattle.std.specs.Prelude.{◌≡◌, ◌^◌, ◌<◌, length, take, IfOk, IfErr};
ghost use Rattle.never_cut.specs.Journal.{IsLegal, after};
ghost use Rattle.never_cut.specs.Laws.{EachEventOnce, ReadingsInOrder, StampsByCommits, StatesByCommits};
ghost use Rattle.never_cut.specs.Replay.{TellsIllegal};
ghost use Rattle.never_cut.specs.Replaying.{model_of};
ghost use Rattle.never_cut.specs.Start.{CanStart};
ghost use Rattle.never_cut.specs.State.{open_model};
ghost use Rattle.never_cut.specs.Within.{AreReadings};

use crate::entered::Entered;
use crate::model::Model;
use crate::replay_fault::ReplayFault;
use crate::replaying::Replaying;
use ink_base::Entry;
use prog_check::Accepted;
use sqlite_items::Items;
use std::alloc::Global;

/// The state of the never-cut kernel after these entries, fewer than 2^32, given one list of readings for each source, each with no
/// more than a source can have. `Illegal` names the first entry that isn't legal in its place.
pub fn replay(
    alloc: Global,
    program: &Accepted,
    readings: &[Items<u32>],
    entries: &[Entry],
) -> Result<Model, ReplayFault>
    requires readings { AreReadings program.now readings.now }
    requires few { length entries.now < 2 ^ 32 }
    ensures legal { IfOk result (λ _. IsLegal program.now readings.now (open_model program.now) entries.now) }
    ensures state { IfOk result (λ m. m ≡ after program.now readings.now (open_model program.now) entries.now) }

    // What every accepted list tells: each reading is settled once and in order; each event of a queue is finished once and in order, or is
    // still held; a thread's state is what its own commits made of it; each output is stamped with the number of a commit of its thread.
    ensures in_order { IfOk result (λ _. ReadingsInOrder program.now readings.now (open_model program.now) entries.now) }
    ensures each_once { IfOk result (λ _. EachEventOnce program.now readings.now (open_model program.now) entries.now) }
    ensures states { IfOk result (λ _. StatesByCommits program.now readings.now (open_model program.now) entries.now) }
    ensures stamps { IfOk result (λ _. StampsByCommits program.now readings.now (open_model program.now) entries.now) }

    // An index is told exactly of the first entry that isn't legal.
    ensures illegal { IfErr result (TellsIllegal program.now readings.now (open_model program.now) entries.now) }
{
    let start = Replaying::open(alloc, program.program())?;
    replay_on(alloc, start, program, readings, entries)
}

/// The state after these entries from a first one on, at which a run can begin: that of the first image, or one that another run left.
/// The readings of a source are counted from its first one, those that the first state has settled included.
pub fn replay_from(
    alloc: Global,
    first: &Model,
    program: &Accepted,
    readings: &[Items<u32>],
    entries: &[Entry],
) -> Result<Model, ReplayFault>
    requires readings { AreReadings program.now readings.now }
    requires few { length entries.now < 2 ^ 32 }
    requires start { CanStart program.now readings.now first.now }
    ensures legal { IfOk result (λ _. IsLegal program.now readings.now first.now entries.now) }
    ensures state { IfOk result (λ m. m ≡ after program.now readings.now first.now entries.now) }

    // What every accepted list tells: each reading is settled once and in order; each event of a queue is finished once and in order, or is
    // still held; a thread's state is what its own commits made of it; each output is stamped with the number of a commit of its thread.
    ensures in_order { IfOk result (λ _. ReadingsInOrder program.now readings.now first.now entries.now) }
    ensures each_once { IfOk result (λ _. EachEventOnce program.now readings.now first.now entries.now) }
    ensures states { IfOk result (λ _. StatesByCommits program.now readings.now first.now entries.now) }
    ensures stamps { IfOk result (λ _. StampsByCommits program.now readings.now first.now entries.now) }

    // An index is told exactly of the first entry that isn't legal.
    ensures illegal { IfErr result (TellsIllegal program.now readings.now first.now entries.now) }
{
    let start = Replaying::begin(alloc, first)?;
    replay_on(alloc, start, program, readings, entries)
}

// The state after these entries, from a first one on, at which a run can begin.
fn replay_on(
    alloc: Global,
    first: Replaying,
    program: &Accepted,
    readings: &[Items<u32>],
    entries: &[Entry],
) -> Result<Model, ReplayFault>
    requires readings { AreReadings program.now readings.now }
    requires few { length entries.now < 2 ^ 32 }
    requires start { CanStart program.now readings.now (model_of first) }
    ensures legal { IfOk result (λ _. IsLegal program.now readings.now (model_of first) entries.now) }
    ensures state { IfOk result (λ m. m ≡ after program.now readings.now (model_of first) entries.now) }
    ensures in_order { IfOk result (λ _. ReadingsInOrder program.now readings.now (model_of first) entries.now) }
    ensures each_once { IfOk result (λ _. EachEventOnce program.now readings.now (model_of first) entries.now) }
    ensures states { IfOk result (λ _. StatesByCommits program.now readings.now (model_of first) entries.now) }
    ensures stamps { IfOk result (λ _. StampsByCommits program.now readings.now (model_of first) entries.now) }
    ensures illegal { IfErr result (TellsIllegal program.now readings.now (model_of first) entries.now) }
{
    let program = program.program();
    let mut state = first;
    for (n, entry) in entries.iter().enumerate() {
        match state.step(alloc, program, readings, *entry)? {
            Entered::Made => {}
            Entered::Illegal => return Err(ReplayFault::Illegal(n as u32)),
        }
    }
    Ok(state.into_model())
}
