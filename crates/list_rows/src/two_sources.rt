//! A job with two sources of its first thread, and what they leave.
ghost use Rattle.std.specs.Prelude.{◌≡◌, ◌∷◌, [], true, IfOk};
ghost use Rattle.list_rows.specs.Rows.{first_lists, second_lists, IsOfTwo};

use ink_base::limits::TEXT_BYTES;
use ink_base::{JobAnswer, NoMemory};
use irq_source::{Declined, Published};
use job_parts::Job;
use power_trace::parse_job;
use queue_lists::SourceLists;
use std::alloc::Global;

/// Thread b has two places, and both sources feed it. Source 0 has three readings, source 1 has one.
const TWO_SOURCES: &[u8] =
    b"[program]\nthread b priority 1 queue 2 state 0 log 8\nsource b\nsource b\ntask t thread b limit 1\ndone\nend\n[sensors]\nS0 7 8 6\nS1 9\n[power]\ncharge 0 S0*30 S1*30\ncharge 0 S0*30\n";

/// The job of that text.
pub fn job(alloc: Global) -> Result<Job, JobAnswer> {
    if TWO_SOURCES.len() > TEXT_BYTES {
        return Err(JobAnswer::NoMemory);
    }
    parse_job(alloc, TWO_SOURCES)
}

/// Whether a job has two sources of its first thread, with three readings and one.
pub fn is_of_two(job: &Job) -> bool
    ensures { result ≡ true → IsOfTwo job.now }
{
    let sources = job.accepted().program().sources.as_slice();
    let readings = job.readings();
    sources.len() == 2
        && readings.len() == 2
        && sources[0].0 == 0
        && sources[1].0 == 0
        && readings[0].len() == 3
        && readings[1].len() == 1
}

fn published(position: u32, reading: u32, value: u32, charge: u32) -> Published
    ensures { result ≡ record { position = position; reading = reading; value = value; charge = charge } }
{
    Published {
        position,
        reading,
        value,
        charge,
    }
}

/// Source 0 has published its first reading at position 0 and its last one at position 2, in the next charge, and the one between them was
/// refused at position 2, when the queue was full. Source 1 has published its reading at position 1.
pub fn two_lists(alloc: Global) -> Result<Vec<SourceLists>, NoMemory>
    ensures { IfOk result (λ lists. lists.items ≡ first_lists ∷ second_lists ∷ []) }
{
    let refused = Declined {
        reading: 1,
        position: 2,
        charge: 0,
    };
    let first = vec![in alloc; published(0, 0, 7, 0), published(2, 2, 6, 1)]?;
    let second = vec![in alloc; published(1, 0, 9, 0)]?;
    let first = SourceLists::new(first, vec![in alloc; refused]?);
    let second = SourceLists::new(second, Vec::new(alloc));
    Ok(vec![in alloc; first, second]?)
}
