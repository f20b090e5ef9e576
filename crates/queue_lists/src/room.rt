//! The room for the lists of a record, taken before the run.
ghost use Rattle.std.specs.Prelude.{◌≡◌, ◌==◌, ◌<◌, ◌≤◌, [], length, vec_capacity, IfOk};
ghost use Rattle.ink_base.specs.declared.limits.TheConstants as limits;
ghost use Rattle.prog_check.specs.Lookup.{source_thread};
ghost use Rattle.never_cut.specs.Entries.{readings_of};
ghost use Rattle.queue_lists.specs.Rooms.{HasSpace, IsRoomOf, readings_for, readings_into, refusals_room};

use ink_base::{Accept, NoMemory, ThreadId};
use job_parts::Job;
use live_account::Refusal;
use sqlite_items::Items;
use std::alloc::Global;
use std::marker::Model;
use task_isa::Program;

/// The room of a queue: empty lists for its events and their charges.
#[derive(Drop)]
pub(crate) struct QueueRoom {
    pub(crate) events: Vec<Accept>,
    pub(crate) charges: Vec<u32>,
}

impl Model for QueueRoom {
    ghost use Rattle.std.specs.Prelude.{◌≡◌, [], vec_capacity};
    ghost use Rattle.queue_lists.specs.Rooms.{Space};

    ghost Value = { Space };

    ghost view = { λ q. record { events = vec_capacity q.events; charges = vec_capacity q.charges } };

    ghost invariant = { λ q. (q.events.items ≡ []) × (q.charges.items ≡ []) };
}

impl QueueRoom {
    fn new(alloc: Global, number: usize) -> Result<QueueRoom, NoMemory>
        ensures { IfOk result (λ room. HasSpace number room) }
    {
        Ok(QueueRoom {
            events: Vec::with_capacity(alloc, number)?,
            charges: Vec::with_capacity(alloc, number)?,
        })
    }

    /// The empty lists.
    pub fn into_lists(self) -> (Vec<Accept>, Vec<u32>)
        ensures empty { (result.0.items ≡ []) × (result.1.items ≡ []) }
        ensures room { (vec_capacity result.0 ≡ self.events) × (vec_capacity result.1 ≡ self.charges) }
    {
        let QueueRoom { events, charges } = self;
        (events, charges)
    }
}

/// The room for the lists of a record: for the events of each queue and their charges, and for the refusals. No call after `new` takes
/// memory for them.
#[derive(Drop)]
pub struct ListRoom {
    pub(crate) queues: Vec<QueueRoom>,
    pub(crate) accepted: Vec<Items<Accept>>,
    pub(crate) charges: Vec<Items<u32>>,
    pub(crate) refused: Vec<Refusal>,
}

impl Model for ListRoom {
    ghost use Rattle.std.specs.Prelude.{◌≡◌, ◌≤◌, [], length, vec_capacity};
    ghost use Rattle.queue_lists.specs.Rooms.{Rooms};
    ghost use Rattle.queue_lists.specs.kept.Lists.{IsEmptyRoom};

    ghost Value = { Rooms };

    ghost view = { λ r. record { queues = r.queues.items; refused = vec_capacity r.refused } };

    ghost invariant = { λ r. IsEmptyRoom (length r.queues.items) r.accepted.items (vec_capacity r.accepted) r.charges.items (vec_capacity r.charges) r.refused.items };
}

impl ListRoom {
    /// Room for all lists that a record of the job can have: in each queue for all readings of its sources, and for each source's refusals.
    pub fn new(alloc: Global, job: &Job) -> Result<ListRoom, NoMemory>
        ensures { IfOk result (λ rooms. IsRoomOf job.now rooms) }
    {
        let threads = job.accepted().program().threads.len();
        let mut queues = Vec::with_capacity(alloc, threads)?;
        for t in 0..threads {
            queues.push_reserved(QueueRoom::new(alloc, readings_into(job, ThreadId(t as u8)))?);
        }
        Ok(ListRoom {
            queues,
            accepted: Vec::with_capacity(alloc, threads)?,
            charges: Vec::with_capacity(alloc, threads)?,
            refused: Vec::with_capacity(alloc, refusals_room(job))?,
        })
    }
}

// Whether a source feeds a thread.
pub(crate) fn feeds(program: &Program, source: usize, thread: ThreadId) -> bool
    requires { source < length program.now.sources }
    ensures { result ≡ (source_thread program.now source == thread.0) }
{
    program.sources.as_slice()[source].0 == thread.0
}

// The readings of a source.
fn readings_of(job: &Job, source: usize) -> &[u32]
    requires { source < length job.now.program.sources }
    ensures same { result.now ≡ readings_of job.now.readings source }
    ensures few { length result.now ≤ limits.READINGS }
{
    job.readings()[source].as_slice()
}

// The number of a source's readings, where it feeds a thread.
fn readings_for(job: &Job, thread: ThreadId, source: usize) -> usize
    requires { source < length job.now.program.sources }
    ensures number { result ≡ length (readings_for job.now thread.0 source) }
    ensures few { result ≤ limits.READINGS }
{
    if feeds(job.accepted().program(), source, thread) {
        readings_of(job, source).len()
    } else {
        0
    }
}

// The readings of all sources that feed a thread.
fn readings_into(job: &Job, thread: ThreadId) -> usize
    ensures { result ≡ readings_into job.now thread.0 }
{
    let mut number = 0;
    for source in 0..job.accepted().program().sources.len() {
        number += readings_for(job, thread, source);
    }
    number
}

// How many refusals all sources can have.
fn refusals_room(job: &Job) -> usize
    ensures { result ≡ refusals_room job.now }
{
    let charges = job.charges().len();
    let mut number = 0;
    for source in 0..job.accepted().program().sources.len() {
        number += readings_of(job, source).len() + charges;
    }
    number
}
