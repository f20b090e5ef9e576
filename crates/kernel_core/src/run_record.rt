//! What a run leaves behind.
ghost use Rattle.std.specs.Prelude.{◌≡◌, ◌≤◌, [], length, map, vec_capacity};
ghost use Rattle.kernel_core.specs.kept.Cores.{charge_in};

use crate::charge_record::ChargeRecord;
use crate::recording::Recording;
use job_parts::Job;
use sqlite_items::Items;

/// The job of a run, what each of its charges left behind, in order, and the words of the FRAM at its end, by address.
#[derive(Drop)]
pub struct RunRecord {
    pub job: Job,
    pub charges: Items<ChargeRecord>,
    pub words: Items<u64>,
}

/// The finished records of the charges, in the room that was kept for them. It takes no memory.
pub(crate) fn finished(
    recordings: Vec<Recording>,
    mut kept: Vec<ChargeRecord>,
) -> Items<ChargeRecord>
    requires empty { kept.items ≡ [] }
    requires room { length recordings.items ≤ vec_capacity kept }
    ensures { result ≡ map charge_in recordings.items }
{
    for recording in recordings {
        kept.push_reserved(recording.finish());
    }
    Items::from_vec(kept)
}
