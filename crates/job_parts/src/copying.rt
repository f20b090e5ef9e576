//! Copies of what a job lists.

ghost use Rattle.std.specs.Prelude.{◌≡◌, IfOk};

use crate::charge::Charge;
use crate::start::Start;
use ink_base::NoMemory;
use never_cut::Replaying;
use prog_check::TryCopy;
use sqlite_items::Items;
use std::alloc::Global;

impl TryCopy for Charge {
    fn try_copy(&self, alloc: Global) -> Result<Charge, NoMemory> {
        Ok(Charge {
            off: self.off,
            items: Items::from_slice(alloc, self.items.as_slice())?,
        })
    }
}

/// An equal list for each source.
pub fn copied_readings(
    alloc: Global,
    readings: &[Items<u32>],
) -> Result<Items<Items<u32>>, NoMemory>
    ensures { IfOk result (λ copy. copy ≡ readings.now) }
{
    let mut copy = Items::new(alloc);
    for values in readings {
        copy.push(Items::from_slice(alloc, values.as_slice())?)?;
    }
    Ok(copy)
}

/// An equal start, where there is one.
pub fn copied_start(alloc: Global, start: &Option<Start>) -> Result<Option<Start>, NoMemory>
    ensures { IfOk result (λ copy. copy ≡ start.now) }
{
    match start {
        None => Ok(None),
        Some(start) => Ok(Some(Start {
            words: Items::from_slice(alloc, start.words.as_slice())?,
            model: Replaying::begin(alloc, &start.model)?.into_model(),
        })),
    }
}
