//! The lists of all sources, put together queue by queue.
ghost use Rattle.std.specs.Prelude.{◌≡◌, ◌+◌, ◌<◌, ◌≤◌, [], ℕ, length, slice_index_or, vec_capacity};
ghost use Rattle.queue_lists.specs.Gathers.{refusals_of, HavePlaces, HaveRoom, ArePlaced, AreQueues, AreGathered};
ghost use Rattle.queue_lists.specs.Lists.{accepted_into, all_into, lists_at};
ghost use Rattle.queue_lists.specs.Rooms.{HasSpace, no_space};

use crate::lists::SourceLists;
use crate::puts::{put_events, put_refusals};
use crate::room::{ListRoom, QueueRoom, feeds};
use ink_base::{Accept, SourceId, ThreadId};
use irq_source::{Declined, Published};
use job_parts::Job;
use live_account::Refusal;
use sqlite_items::Items;
use task_isa::Program;

/// What stands at a place before its event is put there.
const NO_EVENT: Accept = Accept {
    source: SourceId(0),
    reading: 0,
    value: 0,
};

/// The lists of a record that come from its sources.
#[derive(Drop)]
pub struct Gathered {
    /// For each thread's queue its events in order: that of position p has place p.
    pub accepted: Items<Items<Accept>>,
    /// In the same places the charge, from 0, in which the event was accepted.
    pub charges: Items<Items<u32>>,
    /// The refused readings, source by source, and of a source in its order.
    pub refused: Items<Refusal>,
}

/// Puts the lists of all sources together, in the room that was taken: in each queue the events of its sources, each at its position,
/// their charges beside them, and the refusals source by source. It takes no memory.
pub fn gather(job: &Job, lists: &[SourceLists], room: ListRoom) -> Gathered
    requires places { HavePlaces job.now.program lists.now }
    requires room { HaveRoom job.now.program lists.now room }
    ensures { AreGathered job.now.program lists.now result.accepted result.charges result.refused }
{
    let ListRoom {
        queues,
        mut accepted,
        mut charges,
        mut refused,
    } = room;
    let program = job.accepted().program();
    gather_queues(program, lists, queues, &mut accepted, &mut charges);
    gather_refusals(lists, &mut refused);
    Gathered {
        accepted: Items::from_vec(accepted),
        charges: Items::from_vec(charges),
        refused: Items::from_vec(refused),
    }
}

// The events of each thread's queue and their charges, the first thread's first.
fn gather_queues(
    program: &Program,
    lists: &[SourceLists],
    queues: Vec<QueueRoom>,
    accepted: &mut Vec<Items<Accept>>,
    charges: &mut Vec<Items<u32>>,
)
    requires places { HavePlaces program.now lists.now }
    requires few { (length lists.now < 256) × (length program.now.threads < 256) }
    requires queues { length queues.items ≡ length program.now.threads }
    requires space { (t : ℕ) → t < length program.now.threads → HasSpace (all_into program.now lists.now t) (slice_index_or queues.items t no_space) }
    requires empty { (accepted.old.items ≡ []) × (charges.old.items ≡ []) }
    requires room { (length queues.items ≤ vec_capacity accepted.old) × (length queues.items ≤ vec_capacity charges.old) }
    ensures { AreQueues program.now lists.now accepted.new.items charges.new.items }
{
    for queue in queues {
        let thread = ThreadId(accepted.len() as u8);
        let (events, dates) = gather_queue(program, thread, lists, queue);
        accepted.push_reserved(Items::from_vec(events));
        charges.push_reserved(Items::from_vec(dates));
    }
}

// The events of a thread's queue and their charges.
fn gather_queue(
    program: &Program,
    thread: ThreadId,
    lists: &[SourceLists],
    room: QueueRoom,
) -> (Vec<Accept>, Vec<u32>)
    requires places { HavePlaces program.now lists.now }
    requires few { length lists.now < 256 }
    requires room { HasSpace (all_into program.now lists.now thread.0) room }
    ensures { ArePlaced program.now lists.now thread.0 (length lists.now) result.0.items result.1.items }
{
    let (mut accepted, mut charges) = empty_places(program, thread, lists, room);
    for source in 0..lists.len() {
        put_events(
            SourceId(source as u8),
            accepted_into(program, thread, lists, source),
            &mut accepted,
            &mut charges,
        );
    }
    (accepted, charges)
}

// As many places as events were published in a thread's queue.
fn empty_places(
    program: &Program,
    thread: ThreadId,
    lists: &[SourceLists],
    room: QueueRoom,
) -> (Vec<Accept>, Vec<u32>)
    requires sources { length lists.now ≡ length program.now.sources }
    requires room { HasSpace (all_into program.now lists.now thread.0) room }
    ensures events { length result.0.items ≡ all_into program.now lists.now thread.0 }
    ensures charges { length result.1.items ≡ all_into program.now lists.now thread.0 }
{
    let (mut accepted, mut charges) = room.into_lists();
    for source in 0..lists.len() {
        let number = accepted_into(program, thread, lists, source).len();
        add_places(number, &mut accepted, &mut charges);
    }
    (accepted, charges)
}

// Adds so many places.
fn add_places(number: usize, accepted: &mut Vec<Accept>, charges: &mut Vec<u32>)
    requires events { length accepted.old.items + number ≤ vec_capacity accepted.old }
    requires charges { length charges.old.items + number ≤ vec_capacity charges.old }
    ensures events { length accepted.new.items ≡ length accepted.old.items + number }
    ensures charges { length charges.new.items ≡ length charges.old.items + number }
    ensures room { (vec_capacity accepted.new ≡ vec_capacity accepted.old) × (vec_capacity charges.new ≡ vec_capacity charges.old) }
{
    for _ in 0..number {
        accepted.push_reserved(NO_EVENT);
        charges.push_reserved(0);
    }
}

// What a source has published in a thread's queue.
fn accepted_into<'a>(
    program: &Program,
    thread: ThreadId,
    lists: &'a [SourceLists],
    source: usize,
) -> &'a [Published]
    requires source { source < length lists.now }
    requires sources { length lists.now ≡ length program.now.sources }
    ensures { result.now ≡ accepted_into program.now lists.now thread.0 source }
{
    if feeds(program, source, thread) {
        lists[source].accepted()
    } else {
        &[]
    }
}

// The refused readings of a source.
fn refused_by(lists: &[SourceLists], source: usize) -> &[Declined]
    requires { source < length lists.now }
    ensures { result.now ≡ (lists_at lists.now source).refused }
{
    lists[source].refused()
}

// Lists the refusals of all sources behind one another.
fn gather_refusals(lists: &[SourceLists], refused: &mut Vec<Refusal>)
    requires sources { length lists.now < 256 }
    requires empty { refused.old.items ≡ [] }
    requires room { length (refusals_of lists.now (length lists.now)) ≤ vec_capacity refused.old }
    ensures { refused.new.items ≡ refusals_of lists.now (length lists.now) }
{
    for source in 0..lists.len() {
        put_refusals(SourceId(source as u8), refused_by(lists, source), refused);
    }
}
