//! How a charge begins: every actor is cut, and then tells the others what it knows.

ghost use Rattle.std.specs.Prelude.{◌≡◌, ◌+◌, ◌<◌, ◌∷◌, ◌^◌, length};
ghost use Rattle.event_queue.specs.Calls.{sum_of};
ghost use Rattle.event_queue.specs.Seats.{clock_view, IsClockSeatOf, IsKernelSeatOf, IsSameClockSeat};
ghost use Rattle.event_queue.specs.Views.{calls_of};
ghost use Rattle.event_queue.specs.declared.view.Call.TheVariants.{AddClock};
ghost use Rattle.live_board.specs.kept.Begins.{AreOfSet, HaveCharges, IsCut, IsMet, IsKernelMet, KnowsOfAll, HearsOf, SourceBegins};
ghost use Rattle.live_board.specs.kept.Kernels.{HasBegun};
ghost use Rattle.live_board.specs.kept.Slices.{AreChanged};

use event_queue::QueueSet;
use irq_source::SourceActor;
use kernel_actor::{ClockActor, KernelActor};

// Each source loses its place in its table.
fn cut_sources(set: &QueueSet, sources: &mut [SourceActor])
    requires sources { AreOfSet set.now sources.old }
    requires charges { HaveCharges sources.old }
    ensures { AreChanged (IsCut set.now) (length sources.old) sources.old sources.new }
{
    let _set = set;
    for i in 0..sources.len() {
        sources[i].cut();
    }
}

// The kernel hears what each source knows.
fn tell_kernel(set: &QueueSet, sources: &mut [SourceActor], kernel: &mut KernelActor)
    requires sources { AreOfSet set.now sources.old }
    requires kernel { IsKernelSeatOf set.now kernel.old.seat }
    ensures sources { AreChanged (IsMet set.now) (length sources.old) sources.old sources.new }
    ensures kernel { IsKernelMet set.now kernel.old kernel.new }
    ensures told { KnowsOfAll kernel.new (length sources.old) sources.old }
{
    for i in 0..sources.len() {
        let note = sources[i].note(set);
        kernel.hear(set, note);
    }
}

// Each source hears what the kernel knows.
fn tell_sources(set: &QueueSet, sources: &mut [SourceActor], kernel: &mut KernelActor)
    requires sources { AreOfSet set.now sources.old }
    requires kernel { IsKernelSeatOf set.now kernel.old.seat }
    ensures sources { AreChanged (HearsOf set.now kernel.old) (length sources.old) sources.old sources.new }
    ensures kernel { IsKernelMet set.now kernel.old kernel.new }
{
    for i in 0..sources.len() {
        let note = kernel.note(set);
        sources[i].hear(set, note);
    }
}

/// Power fails, for so many ticks, and the next charge begins. The clock goes on by the ticks, and every actor loses its place. The kernel
/// then hears what each source and the clock know, and each source what the kernel knows.
pub(crate) fn begin_charge(
    set: &QueueSet,
    sources: &mut [SourceActor],
    kernel: &mut KernelActor,
    clock: &mut ClockActor,
    off: u32,
)
    requires sources { AreOfSet set.now sources.old }
    requires charges { HaveCharges sources.old }
    requires kernel { IsKernelSeatOf set.now kernel.old.seat }
    requires rooms { 0 < length kernel.old.book.rooms }
    requires clock { IsClockSeatOf set.now clock.old.seat }
    requires sum { sum_of (calls_of (clock_view clock.old.seat)) + off < 2 ^ 47 }
    ensures sources { AreChanged (SourceBegins set.now kernel.old) (length sources.old) sources.old sources.new }
    ensures kernel { HasBegun (sum_of (calls_of (clock_view clock.old.seat)) + off) kernel.old kernel.new }
    ensures kernel_seat { IsKernelSeatOf set.now kernel.new.seat }
    ensures told { KnowsOfAll kernel.new (length sources.old) sources.old }
    ensures clock { IsSameClockSeat clock.old.seat clock.new.seat }
    ensures calls { calls_of (clock_view clock.new.seat) ≡ AddClock off ∷ calls_of (clock_view clock.old.seat) }
{
    clock.cut(set, off);
    kernel.cut();
    cut_sources(set, sources);
    tell_kernel(set, sources, kernel);
    let note = clock.note(set);
    kernel.hear(set, note);
    tell_sources(set, sources, kernel);
}
