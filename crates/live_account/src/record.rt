//! The record of a live board.

use ink_base::{Accept, SourceId};
use job_parts::Job;
use kernel_account::KernelEntry;
use sqlite_items::Items;

/// A reading that met a full queue: which source's, which one from 0, the position at which the source would have put it, and the charge,
/// from 0.
#[derive(Clone, Copy, Debug, PartialEq, Eq)]
pub struct Refusal {
    pub source: SourceId,
    pub reading: u32,
    pub position: u32,
    pub charge: u32,
}

/// What a live board leaves behind of its job.
#[derive(Drop)]
pub struct LiveRecord {
    /// The job that was run.
    pub job: Job,
    /// For each thread's queue its events in order: that of position p has place p.
    pub accepted: Items<Items<Accept>>,
    /// In the same places the charge, from 0, in which the event was accepted.
    pub charges: Items<Items<u32>>,
    /// The refused readings, source by source, and of a source in its order.
    pub refused: Items<Refusal>,
    /// For each charge what the kernel did in it, in order.
    pub kernel: Items<Items<KernelEntry>>,
    /// The words of the FRAM at the end, by address.
    pub words: Items<u64>,
}
