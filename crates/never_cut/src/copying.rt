//! The state of a replay that begins at a given state.

ghost use Rattle.std.specs.Prelude.{◌≡◌, IfOk};
ghost use Rattle.never_cut.specs.Replaying.{model_of};

use crate::kept_outputs::keep_outputs;
use crate::model::Model;
use crate::pipe_model::PipeModel;
use crate::replaying::Replaying;
use crate::scan_model::ScanModel;
use crate::thread_model::ThreadModel;
use ink_base::NoMemory;
use sqlite_items::Items;
use std::alloc::Global;

impl Replaying {
    /// A replay that goes on from a state.
    pub fn begin(alloc: Global, first: &Model) -> Result<Replaying, NoMemory>
        ensures { IfOk result (λ r. model_of r ≡ first.now) }
    {
        Ok(Replaying {
            threads: copied_threads(alloc, first.threads.as_slice())?,
            pipes: copied_pipes(alloc, first.pipes.as_slice())?,
            timers: Vec::from_slice(alloc, first.timers.as_slice())?,
            sources: Vec::from_slice(alloc, first.sources.as_slice())?,
            clock: first.clock,
            outputs: keep_outputs(alloc, first.outputs.as_slice())?,
            commits: first.commits,
            scan: copied_scan(alloc, &first.scan)?,
        })
    }
}

fn copied_threads(alloc: Global, threads: &[ThreadModel]) -> Result<Vec<ThreadModel>, NoMemory>
    ensures { IfOk result (λ copies. copies.items ≡ threads.now) }
{
    let mut copies = Vec::new(alloc);
    for thread in threads {
        copies.push(copied_thread(alloc, thread)?)?;
    }
    Ok(copies)
}

fn copied_thread(alloc: Global, thread: &ThreadModel) -> Result<ThreadModel, NoMemory>
    ensures { IfOk result (λ copy. copy ≡ thread.now) }
{
    Ok(ThreadModel {
        state: Items::from_slice(alloc, thread.state.as_slice())?,
        running: thread.running,
        event: thread.event,
        first: thread.first,
        held: Items::from_slice(alloc, thread.held.as_slice())?,
        finished: thread.finished,
        released: thread.released,
        served: thread.served,
        trapped: thread.trapped,
        expired: thread.expired,
    })
}

fn copied_pipes(alloc: Global, pipes: &[PipeModel]) -> Result<Vec<PipeModel>, NoMemory>
    ensures { IfOk result (λ copies. copies.items ≡ pipes.now) }
{
    let mut copies = Vec::new(alloc);
    for pipe in pipes {
        copies.push(PipeModel {
            items: Items::from_slice(alloc, pipe.items.as_slice())?,
            taken: pipe.taken,
        })?;
    }
    Ok(copies)
}

fn copied_scan(alloc: Global, scan: &Option<ScanModel>) -> Result<Option<ScanModel>, NoMemory>
    ensures { IfOk result (λ copy. copy ≡ scan.now) }
{
    match scan {
        None => Ok(None),
        Some(scan) => Ok(Some(ScanModel {
            time: scan.time,
            looked: Items::from_slice(alloc, scan.looked.as_slice())?,
        })),
    }
}
