//! Jobs.

use crate::charge::Charge;
use crate::copying::{copied_readings, copied_start};
use crate::start::Start;
use ink_base::NoMemory;
use prog_check::{Accepted, copies};
use sqlite_items::Items;
use std::alloc::Global;
use std::marker::Model;

/// An accepted program, the readings of each of its sources, and its power trace, all within the limits: those of a source's readings, of
/// charges, of which there is one at least, and of the turns that all charges list, of the board's own actors. A job may have a start: the
/// words of an image of its program that isn't worn, and the state that is read off them, which has settled no more readings than there are.
#[derive(Drop)]
pub struct Job {
    pub accepted: Accepted,
    pub readings: Items<Items<u32>>,
    pub charges: Items<Charge>,
    pub start: Option<Start>,
}

impl Model for Job {
    ghost use Rattle.job_parts.specs.Job.{JobParts, IsJob};

    ghost Value = { JobParts };

    ghost view = { λ j. record { program = j.accepted; readings = j.readings; charges = j.charges; start = j.start } };

    ghost invariant = { λ j. IsJob (record { program = j.accepted; readings = j.readings; charges = j.charges; start = j.start }) };
}

impl Job {
    ghost use Rattle.std.specs.Prelude.{◌≡◌, IfOk};
    ghost use Rattle.job_parts.specs.Job.{IsJob};

    /// The job of these parts, which are within the limits. Where there is no start, its run begins at the first image of the program.
    pub fn new(
        accepted: Accepted,
        readings: Items<Items<u32>>,
        charges: Items<Charge>,
        start: Option<Start>,
    ) -> Job
        requires { IsJob (record { program = accepted; readings = readings; charges = charges; start = start }) }
        ensures { result ≡ record { program = accepted; readings = readings; charges = charges; start = start } }
    {
        Job {
            accepted,
            readings,
            charges,
            start,
        }
    }

    /// The program.
    pub fn accepted(&self) -> &Accepted
        ensures same { result.now ≡ self.now.program }
        ensures job { IsJob self.now }
    {
        &self.accepted
    }

    /// The readings of each source, in the order of the sources.
    pub fn readings(&self) -> &[Items<u32>]
        ensures same { result.now ≡ self.now.readings }
        ensures job { IsJob self.now }
    {
        self.readings.as_slice()
    }

    /// The charges in order.
    pub fn charges(&self) -> &[Charge]
        ensures same { result.now ≡ self.now.charges }
        ensures job { IsJob self.now }
    {
        self.charges.as_slice()
    }

    /// Where its run begins; none for the first image of the program.
    pub fn start(&self) -> &Option<Start>
        ensures same { result.now ≡ self.now.start }
        ensures job { IsJob self.now }
    {
        &self.start
    }

    /// An equal job.
    pub fn copy(&self, alloc: Global) -> Result<Job, NoMemory>
        ensures { IfOk result (λ copy. copy ≡ self.now) }
    {
        Ok(Job {
            accepted: self.accepted.copy(alloc)?,
            readings: copied_readings(alloc, self.readings.as_slice())?,
            charges: copies(alloc, self.charges.as_slice())?,
            start: copied_start(alloc, &self.start)?,
        })
    }

    /// The program, the readings of each source, the charges, and the start.
    pub fn into_parts(self) -> (Accepted, Items<Items<u32>>, Items<Charge>, Option<Start>)
        ensures program { result.0 ≡ self.program }
        ensures readings { result.1 ≡ self.readings }
        ensures charges { result.2 ≡ self.charges }
        ensures start { result.3 ≡ self.start }
        ensures job { IsJob self }
    {
        let Job {
            accepted,
            readings,
            charges,
            start,
        } = self;
        (accepted, readings, charges, start)
    }
}
