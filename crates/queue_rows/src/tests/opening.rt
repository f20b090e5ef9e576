//! Sets with one queue.
ghost use Rattle.std.specs.Prelude.{◌≡◌, ◌<◌, ◌≤◌, ◌++◌, All, IfOk, OnOk};
ghost use Rattle.event_queue.specs.Seats.{IsNewClock};
ghost use Rattle.event_queue.specs.Views.{lay_of};
ghost use Rattle.queue_rows.specs.Rounds.{firsts, IsOneQueue, IsNew, IsAt};

use event_queue::{ClockSeat, KernelSeat, QueueSet, Shape, SourceSeat};
use ink_base::limits::{QUEUE_PLACES, SOURCES};
use ink_base::{NoMemory, ThreadId};
use std::alloc::Global;

/// Adds the first thread so many times.
fn push_firsts(threads: &mut Vec<ThreadId>, count: usize) -> Result<(), NoMemory>
    ensures { OnOk result (threads.new.items ≡ threads.old.items ++ firsts count) }
{
    for _ in 0..count {
        threads.push(ThreadId(0))?;
    }
    Ok(())
}

/// One queue with so many places, and so many sources of it.
fn one_queue(alloc: Global, queue: u8, number: usize) -> Result<Shape, NoMemory>
    ensures { IfOk result (λ s. IsOneQueue (lay_of s) queue number) }
{
    let mut places = Vec::new(alloc);
    places.push(queue)?;
    let mut sources = Vec::new(alloc);
    push_firsts(&mut sources, number)?;
    Ok(Shape { places, sources })
}

/// A set with one queue and its seats.
#[tactic(auto, using(crate::proofs::Queues::one_limits, crate::proofs::Queues::opened_kernel))]
pub fn open(
    alloc: Global,
    places: u8,
    number: usize,
) -> Result<(QueueSet, KernelSeat, Vec<SourceSeat>, ClockSeat), NoMemory>
    requires places { (0 < places) × (places ≤ QUEUE_PLACES) }
    requires number { number ≤ SOURCES }
    ensures kernel { IfOk result (λ r. IsAt r.0 0 r.1) }
    ensures sources { IfOk result (λ r. All (IsNew r.0 places) r.2.items) }
    ensures clock { IfOk result (λ r. IsNewClock r.0 r.3) }
{
    let shape = one_queue(alloc, places, number)?;
    let (set, kernel, seats, clock) = QueueSet::new(alloc, shape)?;
    Ok((set, kernel, seats, clock))
}
