//! Two charges of a source, of which the first is cut.
ghost use Rattle.std.specs.Prelude.{◌≡◌, ◌<◌, ◌≤◌, length};
ghost use Rattle.push_core.specs.Table.{IsFew};
ghost use Rattle.event_queue.specs.Calls.{released_of};
ghost use Rattle.event_queue.specs.Views.{calls_of};
ghost use Rattle.event_queue.specs.Seats.{kernel_view, IsSeatOf, IsKernelSeatOf};

use crate::tests::opening::open;
use event_queue::{KernelSeat, QueueSet, Seen};
use ink_base::limits::QUEUE_PLACES;
use ink_base::{NoMemory, ThreadId};
use irq_source::{NoGate, SourceActor, SourceParts};
use std::alloc::Global;

/// The rest of the readings in the charge that begins now.
fn rest(set: &QueueSet, source: SourceActor) -> SourceParts
    requires seat { IsSeatOf set.now source.seat }
    requires charge { source.begun < source.charges }
{
    let mut source = source;
    source.cut();
    source.run_charge(set, 100, &NoGate);
    source.into_parts()
}

/// The first charge is cut after so many accesses.
pub fn cut_after(
    alloc: Global,
    places: u8,
    readings: Vec<u32>,
    accesses: u32,
) -> Result<SourceParts, NoMemory>
    requires places { (0 < places) × (places ≤ QUEUE_PLACES) }
    requires readings { IsFew readings.items }
{
    let (set, _kernel, mut source) = open(alloc, places, readings, 2)?;
    source.cut();
    source.run_charge(&set, accesses, &NoGate);
    Ok(rest(&set, source))
}

/// The kernel serves the first event, if it is there.
fn serve_first(set: &QueueSet, kernel: &mut KernelSeat) -> Option<u32>
    requires seat { IsKernelSeatOf set.now kernel.old }
    requires thread { 0 < length (kernel_view kernel.old).lay.queues }
    requires first { released_of 0 (calls_of (kernel_view kernel.old)) ≡ 0 }
    ensures seat { IsKernelSeatOf set.now kernel.new }
{
    let Seen::Full(event) = kernel.look(set, ThreadId(0), 0) else {
        return None;
    };
    kernel.store_ack(set, ThreadId(0), 0);
    kernel.release(set, ThreadId(0), 0);
    Some(event.value)
}

/// The first charge is cut after so many accesses. Before the second one the kernel serves the first event, and the two tell each other
/// what they know. Answers the served value too.
pub fn released_after(
    alloc: Global,
    places: u8,
    readings: Vec<u32>,
    accesses: u32,
) -> Result<(Option<u32>, SourceParts), NoMemory>
    requires places { (0 < places) × (places ≤ QUEUE_PLACES) }
    requires readings { IsFew readings.items }
{
    let (set, mut kernel, mut source) = open(alloc, places, readings, 2)?;
    source.cut();
    source.run_charge(&set, accesses, &NoGate);
    let served = serve_first(&set, &mut kernel);
    let note = source.note(&set);
    kernel.hear(&set, note);
    let note = kernel.note(&set);
    source.hear(&set, note);
    Ok((served, rest(&set, source)))
}
