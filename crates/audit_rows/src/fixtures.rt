//! A job, what its run prints, and the verdicts on claims of it.

use ink_audit::{Verdict, audit};
use ink_base::NoMemory;
use ink_base::limits::TEXT_BYTES;
use ink_image::whole_job;
use std::alloc::Global;

/// A job of one thread, one source and one reading.
pub const JOB: &[u8] =
    b"[program]\nthread a priority 1 queue 2 state 1 log 8\nsource a\ntask sum thread a limit 100\nli r1 0\nld r2 r1\nev r3\nadd r2 r2 r3\nst r2 r1\nout r2\ndone\nend\n[sensors]\nS0 7\n[power]\ncharge 0 S0*9 K*79\n";

/// What its run prints in front of its journal: four lines and `[journal]`.
pub const HEAD: &[u8] =
    b"1 a 7\nthread a served 1 trapped 0 expired 0 held 0\nsource S0 next 1 pushed 1 refused 0\nclock 0 commits 1 charges 1\n[journal]\n";

/// What is told of a claim: the line of a No, 0 for a Yes. None where the job isn't read, where there is no memory, and where a text is
/// longer than that of a job may be.
pub fn verdict(alloc: Global, job: &[u8], claim: &[u8]) -> Option<u32> {
    if job.len() > TEXT_BYTES || claim.len() > TEXT_BYTES {
        return None;
    }
    let job = whole_job(alloc, job).ok()?;
    match audit(alloc, &job, claim).ok()? {
        Verdict::Yes => Some(0),
        Verdict::No { line } => Some(line),
    }
}

/// What is told of these pieces, one behind the other, as what the run of the job prints.
pub fn told(alloc: Global, pieces: &[&[u8]]) -> Result<Option<u32>, NoMemory> {
    let mut claim = Vec::new(alloc);
    for piece in pieces {
        claim.extend_from_slice(piece)?;
    }
    Ok(verdict(alloc, JOB, claim.as_slice()))
}
