//! The sources and the kernel in threads of their own.
ghost use Rattle.std.specs.Prelude.{◌≡◌, ◌<◌, ◌≤◌, All, length};
ghost use Rattle.std.specs.Thread.{IsSync};
ghost use Rattle.event_queue.specs.Seats.{IsSeatOf, IsKernelSeatOf};
ghost use Rattle.queue_rows.specs.Rounds.{IsNew, IsAt};

use crate::tests::rounds::{push_all, take_all};
use crate::tests::served::Served;
use event_queue::{KernelSeat, QueueSet, SourceSeat};
use std::sync::atomic::{AtomicU32, Ordering};
use std::thread::{Threads, for_each_mut, join_mut};

/// What a source does, and adds to the number of all that was published.
fn publish(
    set: &QueueSet,
    seat: &mut SourceSeat,
    places: u8,
    readings: u32,
    rounds: u32,
    published: &AtomicU32,
)
    requires after { IsNew set.now places seat.old }
    requires places { 0 < places }
    requires few { readings ≤ 64 }
    ensures { IsSeatOf set.now seat.new }
{
    let count = push_all(set, seat, places, readings, rounds);
    published.fetch_add(count, Ordering::SeqCst);
}

/// All sources at once.
pub fn push_at_once<R: Threads + Sync>(
    rt: &R,
    set: &QueueSet,
    seats: &mut [SourceSeat],
    places: u8,
    readings: u32,
    rounds: u32,
    published: &AtomicU32,
)
    requires after { All (IsNew set.now places) seats.old }
    requires places { 0 < places }
    requires few { readings ≤ 64 }
    ensures seats { All (IsSeatOf set.now) seats.new }
    ensures number { length seats.new ≡ length seats.old }
{
    for_each_mut(
        rt,
        seats,
        16,
        &|_, seat| publish(set, seat, places, readings, rounds, published),
    );
}

/// All sources and the kernel at once, on a queue with four places. Answers how many events the kernel released.
pub fn all_at_once<R: Threads + Sync>(
    rt: &R,
    set: &QueueSet,
    kernel: &mut KernelSeat,
    seats: &mut [SourceSeat],
    published: &AtomicU32,
    served: &mut Served,
) -> u32
    requires kernel { IsAt set.now 0 kernel.old }
    requires seats { All (IsNew set.now 4) seats.old }
    ensures kernel { IsAt set.now result kernel.new }
    ensures seats { All (IsSeatOf set.now) seats.new }
    ensures number { length seats.new ≡ length seats.old }
{
    let mut released = 0;
    join_mut(
        rt,
        &mut ||
            requires { IsAt set.now 0 kernel.now }
            ensures { IsAt set.entry.now released.exit kernel.exit.now }
        { released = take_all(set, kernel, 400, served) },
        &mut ||
            requires { IsSync R.row × All (IsNew set.now 4) seats.now }
            ensures { All (IsSeatOf set.entry.now) seats.exit.now × (length seats.exit.now ≡ length seats.entry.now) }
        { push_at_once(rt, set, seats, 4, 8, 200, published) },
    );
    released
}
