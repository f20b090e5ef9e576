//! Rounds of a source and of the kernel on a set with one queue.
ghost use Rattle.std.specs.Prelude.{◌≡◌, ◌+◌, ◌<◌, ◌≤◌, [], true, false, length, OnSome, IsNone};
ghost use Rattle.push_core.specs.Slots.{slot_in};
ghost use Rattle.event_queue.specs.Calls.{mine_of, next_of, released_of, published_by};
ghost use Rattle.event_queue.specs.Views.{calls_of, out_of};
ghost use Rattle.event_queue.specs.Seats.{view, kernel_view, ring_of, IsSeatOf, IsKernelSeatOf};
ghost use Rattle.queue_rows.specs.Rounds.{IsNew, IsAt};

use crate::tests::served::Served;
use event_queue::{KernelSeat, QueueSet, Seen, SourceSeat};
use ink_base::{Event, ThreadId};
use push_core::{Slot, read_slot};

/// One round of a source: the tail, its slot, an exchange of the slot where it is free, and one of the tail past an event of its
/// position. Answers whether the reading was published.
fn round(set: &QueueSet, seat: &mut SourceSeat, places: u8, reading: u32) -> bool
    requires seat { IsSeatOf set.now seat.old }
    requires ring { ring_of seat.old ≡ places }
    requires places { 0 < places }
    requires later { next_of (calls_of (view seat.old)) ≤ reading }
    requires count { length (mine_of (calls_of (view seat.old))) ≡ reading }
    requires few { reading < 64 }
    ensures seat { IsSeatOf set.now seat.new }
    ensures ring { ring_of seat.new ≡ places }
    ensures done { result ≡ true → (next_of (calls_of (view seat.new)) ≡ reading + 1) × (length (mine_of (calls_of (view seat.new))) ≡ reading + 1) }
    ensures same { result ≡ false → (next_of (calls_of (view seat.new)) ≡ next_of (calls_of (view seat.old))) × (length (mine_of (calls_of (view seat.new))) ≡ reading) }
{
    let position = seat.load_tail(set) as u32;
    let slot = (position % places as u32) as u8;
    match read_slot(seat.load_slot(set, slot)) {
        Some(Slot::Empty { position: free }) if free == position => {
            match seat.publish(set, position, reading, reading as u8, reading) {
                Ok(()) => {
                    let _ = seat.help_tail(set, position);
                    true
                }
                Err(_) => false,
            }
        }
        Some(
            Slot::Full {
                position: held,
                source: _,
                count: _,
                value: _,
            },
        ) if held == position => {
            let _ = seat.help_tail(set, position);
            false
        }
        _ => false,
    }
}

/// Publishes up to so many readings, each with its number as value, in so many rounds. Answers how many were published.
pub fn push_all(
    set: &QueueSet,
    seat: &mut SourceSeat,
    places: u8,
    readings: u32,
    rounds: u32,
) -> u32
    requires seat { IsSeatOf set.now seat.old }
    requires ring { ring_of seat.old ≡ places }
    requires new { calls_of (view seat.old) ≡ [] }
    requires places { 0 < places }
    requires few { readings ≤ 64 }
    ensures { IsSeatOf set.now seat.new }
{
    let mut reading = 0;
    for _ in 0..rounds {
        if reading < readings && round(set, seat, places, reading) {
            reading += 1;
        }
    }
    reading
}

/// Looks for the event at the next position; where it is there, acknowledges and releases it.
fn take_next(set: &QueueSet, kernel: &mut KernelSeat, position: u32) -> Option<Event>
    requires seat { IsKernelSeatOf set.now kernel.old }
    requires thread { 0 < length (kernel_view kernel.old).lay.queues }
    requires position { position ≡ released_of 0 (calls_of (kernel_view kernel.old)) }
    ensures seat { IsKernelSeatOf set.now kernel.new × ((kernel_view kernel.new).lay ≡ (kernel_view kernel.old).lay) }
    ensures some { OnSome result (released_of 0 (calls_of (kernel_view kernel.new)) ≡ position + 1) }
    ensures none { IsNone result → released_of 0 (calls_of (kernel_view kernel.new)) ≡ position }
{
    match kernel.look(set, ThreadId(0), position) {
        Seen::Full(event) => {
            kernel.store_ack(set, ThreadId(0), position);
            kernel.release(set, ThreadId(0), position);
            Some(event)
        }
        _ => None,
    }
}

/// Takes the events that so many looks find, up to 64, and answers how many they are.
pub fn take_all(set: &QueueSet, kernel: &mut KernelSeat, looks: u32, served: &mut Served) -> u32
    requires { IsAt set.now 0 kernel.old }
    ensures { IsAt set.now result kernel.new }
{
    let mut position = 0;
    for _ in 0..looks {
        if position == 64 {
            break;
        }
        if let Some(event) = take_next(set, kernel, position) {
            served.take(&event);
            position += 1;
        }
    }
    position
}
