//! Each kind of step, one after another.
ghost use Rattle.std.specs.Prelude.{◌≡◌, All, length};
ghost use Rattle.event_queue.specs.Seats.{IsSeatOf, IsKernelSeatOf};
ghost use Rattle.queue_rows.specs.Rounds.{IsNew, IsAt};

use crate::tests::opening::open;
use event_queue::{KernelSeat, QueueSet, Seen, SourceSeat};
use ink_base::{NoMemory, ThreadId};
use std::alloc::Global;
use std::thread::{Threads, for_each_mut};

/// The first so many of a source's five kinds of step, by which it publishes the value 7.
fn source_steps(set: &QueueSet, seat: &mut SourceSeat, steps: u8)
    requires { IsNew set.now 2 seat.old }
    ensures { IsSeatOf set.now seat.new }
{
    if steps == 0 {
        return;
    }
    seat.load_tail(set);
    if steps == 1 {
        return;
    }
    seat.load_slot(set, 0);
    if steps == 2 || seat.publish(set, 0, 0, 0, 7).is_err() || steps == 3 {
        return;
    }
    let _ = seat.help_tail(set, 0);
    if steps > 4 {
        seat.load_ack(set);
    }
}

/// The same of each source's seat, one after another.
fn all_source_steps<R: Threads + Sync>(rt: &R, set: &QueueSet, seats: &mut [SourceSeat], steps: u8)
    requires { All (IsNew set.now 2) seats.old }
    ensures seats { All (IsSeatOf set.now) seats.new }
    ensures number { length seats.new ≡ length seats.old }
{
    for_each_mut(rt, seats, 1, &|_, seat| source_steps(set, seat, steps));
}

/// The first so many of the kernel's four kinds of step, by which it takes the first event.
fn kernel_steps(set: &QueueSet, kernel: &mut KernelSeat, steps: u8)
    requires { IsAt set.now 0 kernel.old }
    ensures { IsKernelSeatOf set.now kernel.new }
{
    if steps == 0 {
        return;
    }
    let seen = kernel.look(set, ThreadId(0), 0);
    let Seen::Full(_) = seen else {
        return;
    };
    if steps == 1 {
        return;
    }
    kernel.store_ack(set, ThreadId(0), 0);
    if steps == 2 {
        return;
    }
    kernel.release(set, ThreadId(0), 0);
    if steps > 3 {
        kernel.load_clock(set);
    }
}

/// The words of a queue with two places after so many steps of its one source, so many of the kernel, and so many ticks.
pub fn words_after<R: Threads + Sync>(
    rt: &R,
    alloc: Global,
    source: u8,
    kernel: u8,
    ticks: u8,
) -> Result<Vec<u64>, NoMemory> {
    let (set, mut kernel_seat, mut seats, mut clock) = open(alloc, 2, 1)?;
    all_source_steps(rt, &set, seats.as_mut_slice(), source);
    kernel_steps(&set, &mut kernel_seat, kernel);
    if ticks > 0 {
        clock.add_clock(&set, ticks as u64);
    }
    Ok(set.finish(kernel_seat, seats, clock).words)
}
