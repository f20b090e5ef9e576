//! One entry of an open replay.

ghost use Rattle.std.specs.Prelude.{◌≡◌, IfOk};
ghost use Rattle.prog_check.specs.Accepted.{IsAccepted};
ghost use Rattle.never_cut.specs.Replay.{TellsEntry};
ghost use Rattle.never_cut.specs.Replaying.{model_of};
ghost use Rattle.never_cut.specs.Within.{AreReadings, HasRoom};

use crate::entered::Entered;
use crate::replaying::Replaying;
use ink_base::{Entry, NoMemory};
use prog_check::Accepted;
use sqlite_items::Items;
use std::alloc::Global;
use task_isa::Program;

impl Replaying {
    /// Enters the next entry: `Made` where it is legal, and then its effect is made; else `Illegal`, and nothing changes. There is room
    /// for the entry after every legal journal of fewer than 2^32 - 1 entries from a state at which a run can begin. Where there was no
    /// memory, nothing is known of the state.
    pub fn enter(
        &mut self,
        alloc: Global,
        program: &Accepted,
        readings: &[Items<u32>],
        entry: Entry,
    ) -> Result<Entered, NoMemory>
        requires readings { AreReadings program.now readings.now }
        requires room { HasRoom program.now (model_of self.old) }
        ensures { IfOk result (TellsEntry program.now readings.now (model_of self.old) entry (model_of self.new)) }
    {
        self.step(alloc, program.program(), readings, entry)
    }

    // The same of a program that is known to be accepted.
    pub(crate) fn step(
        &mut self,
        alloc: Global,
        program: &Program,
        readings: &[Items<u32>],
        entry: Entry,
    ) -> Result<Entered, NoMemory>
        requires accepted { IsAccepted program.now }
        requires readings { AreReadings program.now readings.now }
        requires room { HasRoom program.now (model_of self.old) }
        ensures { IfOk result (TellsEntry program.now readings.now (model_of self.old) entry (model_of self.new)) }
    {
        if !self.may(program, readings, entry) {
            return Ok(Entered::Illegal);
        }
        self.apply(alloc, program, readings, entry)?;
        Ok(Entered::Made)
    }
}
