//! A source on a queue of its own.
ghost use Rattle.std.specs.Prelude.{◌≡◌, ◌<◌, ◌≤◌, [], ◌∷◌, length, IfOk};
ghost use Rattle.push_core.specs.Table.{IsFew};
ghost use Rattle.event_queue.specs.Calls.{released_of};
ghost use Rattle.event_queue.specs.Views.{calls_of};
ghost use Rattle.event_queue.specs.Seats.{kernel_view, IsSeatOf, IsKernelSeatOf};

use event_queue::{KernelSeat, QueueSet, Shape};
use fram_words::QueuePlace;
use ink_base::limits::QUEUE_PLACES;
use ink_base::{NoMemory, SourceId, ThreadId};
use irq_source::SourceActor;
use push_core::Port;
use std::alloc::Global;

/// One queue with so many places, and its one source.
fn one_queue(alloc: Global, queue: u8) -> Result<Shape, NoMemory>
    ensures { IfOk result (λ s. (s.places.items ≡ queue ∷ []) × (s.sources.items ≡ record { 0 = 0 } ∷ [])) }
{
    let mut places = Vec::new(alloc);
    places.push(queue)?;
    let mut sources = Vec::new(alloc);
    sources.push(ThreadId(0))?;
    Ok(Shape { places, sources })
}

/// A set with one queue of so many places, the kernel's seat, and the queue's source with these readings before its first charge.
pub fn open(
    alloc: Global,
    places: u8,
    readings: Vec<u32>,
    charges: u32,
) -> Result<(QueueSet, KernelSeat, SourceActor), NoMemory>
    requires places { (0 < places) × (places ≤ QUEUE_PLACES) }
    requires readings { IsFew readings.items }
    ensures kernel { IfOk result (λ r. IsKernelSeatOf r.0 r.1 × (0 < length (kernel_view r.1).lay.queues) × (released_of 0 (calls_of (kernel_view r.1)) ≡ 0)) }
    ensures source { IfOk result (λ r. IsSeatOf r.0 r.2.seat × (r.2.begun ≡ 0) × (r.2.charges ≡ charges)) }
{
    let shape = one_queue(alloc, places)?;
    let (set, kernel, mut seats, _clock) = QueueSet::new(alloc, shape)?;
    let seat = seats.swap_remove(0);
    let port = Port {
        source: SourceId(0),
        queue: QueuePlace {
            tail: 0,
            slots: 1,
            places,
        },
        ack: 33,
        src: 35,
    };
    let source = SourceActor::new(alloc, port, seat, readings, charges)?;
    Ok((set, kernel, source))
}
