//! Notes that carry a count from the kernel to a source and back.
ghost use Rattle.std.specs.Prelude.{◌≡◌, ◌<◌, ◌≤◌, length, slice_index};
ghost use Rattle.event_queue.specs.Calls.{released_of};
ghost use Rattle.event_queue.specs.Views.{calls_of, gone_of, queue_of};
ghost use Rattle.event_queue.specs.Seats.{view, kernel_view, IsSeatOf, IsKernelSeatOf};
ghost use Rattle.queue_rows.specs.Rounds.{IsNew, IsAt};

use event_queue::{KernelSeat, QueueSet, Seen, SourceSeat};
use ink_base::ThreadId;

/// The kernel tells a source of the first queue by a note, and the source then knows what the kernel has released.
fn tell_source(set: &QueueSet, kernel: &mut KernelSeat, source: &mut SourceSeat)
    requires kernel { IsKernelSeatOf set.now kernel.old }
    requires thread { 0 < length (kernel_view kernel.old).lay.queues }
    requires source { IsSeatOf set.now source.old }
    requires queue { queue_of (view source.old).lay source.old.source.0 ≡ 0 }
    ensures kernel { IsKernelSeatOf set.now kernel.new }
    ensures source { IsSeatOf set.now source.new }
    ensures queue { queue_of (view source.new).lay source.new.source.0 ≡ 0 }
    ensures count { released_of 0 (calls_of (kernel_view kernel.old)) ≤ gone_of (view source.new) source.new.source.0 }
{
    let note = kernel.note(set);
    source.hear(set, note);
}

/// A source of the first queue tells the kernel by a note, and the kernel was then told what the source knows to be released.
fn tell_kernel(set: &QueueSet, source: &mut SourceSeat, kernel: &mut KernelSeat)
    requires kernel { IsKernelSeatOf set.now kernel.old }
    requires source { IsSeatOf set.now source.old }
    requires queue { queue_of (view source.old).lay source.old.source.0 ≡ 0 }
    ensures count { gone_of (view source.old) source.old.source.0 ≤ slice_index (kernel_view kernel.new).told.released 0 }
{
    let note = source.note(set);
    kernel.hear(set, note);
}

/// The number of the kernel's releases goes to a source by one note and comes back by another.
fn there_and_back(set: &QueueSet, kernel: &mut KernelSeat, source: &mut SourceSeat)
    requires kernel { IsKernelSeatOf set.now kernel.old }
    requires thread { 0 < length (kernel_view kernel.old).lay.queues }
    requires source { IsSeatOf set.now source.old }
    requires queue { queue_of (view source.old).lay source.old.source.0 ≡ 0 }
    ensures { released_of 0 (calls_of (kernel_view kernel.old)) ≤ slice_index (kernel_view kernel.new).told.released 0 }
{
    tell_source(set, kernel, source);
    tell_kernel(set, source, kernel);
}

/// A source publishes a value, the kernel takes it, and the two tell each other. Answers the value.
pub fn taken_and_told(
    set: &QueueSet,
    kernel: &mut KernelSeat,
    source: &mut SourceSeat,
) -> Option<u32>
    requires kernel { IsAt set.now 0 kernel.old }
    requires source { IsNew set.now 4 source.old }
{
    source.publish(set, 0, 0, 0, 7).ok()?;
    let Seen::Full(event) = kernel.look(set, ThreadId(0), 0) else {
        return None;
    };
    kernel.store_ack(set, ThreadId(0), 0);
    kernel.release(set, ThreadId(0), 0);
    there_and_back(set, kernel, source);
    Some(event.value)
}
