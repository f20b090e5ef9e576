//! Readings behind those that an image has settled.

ghost use Rattle.std.specs.Prelude.{◌≡◌, ◌++◌, length, map, replicate, List, ℕ, IfOk};
ghost use Rattle.ink_image.specs.Whole.{behind_settled, listed_of};

use ink_base::NoMemory;
use job_parts::Job;
use never_cut::SourceModel;
use sqlite_items::Items;
use std::alloc::Global;

/// How many readings a job lists for each source.
pub fn listed_of(alloc: Global, job: &Job) -> Result<Vec<u32>, NoMemory>
    ensures { IfOk result (λ counts. counts.items ≡ listed_of job.now) }
{
    let mut counts = Vec::new(alloc);
    for values in job.readings() {
        counts.push(values.len() as u32)?;
    }
    Ok(counts)
}

/// As many zeros as each source has settled readings, in front of those that are listed for it.
pub fn behind_settled(
    alloc: Global,
    sources: &[SourceModel],
    readings: &[Items<u32>],
) -> Result<Items<Items<u32>>, NoMemory>
    requires { length sources.now ≡ length readings.now }
    ensures { IfOk result (λ lists. lists ≡ behind_settled sources.now readings.now) }
{
    let mut lists = Items::new(alloc);
    for (i, values) in readings.iter().enumerate() {
        lists.push(with_zeros(alloc, sources[i].next, values.as_slice())?)?;
    }
    Ok(lists)
}

// So many zeros, and the values behind them.
fn with_zeros(alloc: Global, count: u32, values: &[u32]) -> Result<Items<u32>, NoMemory>
    ensures { IfOk result (λ list. list ≡ replicate count 0 ++ values.now) }
{
    let mut list = vec![in alloc; 0u32; count as usize]?;
    list.extend_from_slice(values)?;
    Ok(Items::from_vec(list))
}
