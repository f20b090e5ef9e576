//! The state of the never-cut kernel.

use crate::pipe_model::PipeModel;
use crate::scan_model::ScanModel;
use crate::source_model::SourceModel;
use crate::thread_model::ThreadModel;
use crate::timer_model::TimerModel;
use ink_base::Output;
use sqlite_items::Items;

/// The state of the never-cut kernel: its threads, pipes, timers and sources by their numbers, the clock in ticks, all outputs in order,
/// the number of commits, and the scan that the next commit will stand on. It has no word of the board, no register and no power.
#[derive(Drop)]
pub struct Model {
    pub threads: Items<ThreadModel>,
    pub pipes: Items<PipeModel>,
    pub timers: Items<TimerModel>,
    pub sources: Items<SourceModel>,
    pub clock: u64,
    pub outputs: Items<Output>,
    pub commits: u64,
    pub scan: Option<ScanModel>,
}
