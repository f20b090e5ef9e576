//! A board before its first charge.
ghost use Rattle.std.specs.Prelude.{◌≡◌, ◌<◌, ◌≤◌, [], length, slice_index_or, vec_capacity, IfOk};
ghost use Rattle.std.specs.Option.{ForSome};
ghost use Rattle.push_core.specs.Table.{IsPort};
ghost use Rattle.ink_layout.specs.Shape.{shape_of, words_of};
ghost use Rattle.kernel_core.specs.Board.{first_board};
ghost use Rattle.kernel_core.specs.First.{StandsFirst};
ghost use Rattle.kernel_core.specs.Stands.{BoardStands};
ghost use Rattle.kernel_core.specs.Core.{setup_of, no_charge, job_of};
ghost use Rattle.job_parts.specs.Job.{AreFirstWords, IsJob, item_turns, charge_turns};
ghost use Rattle.kernel_core.specs.kept.Starts.{FitsBoard, port_in, IsFirstRecord, AreFirstPushers, AreFirstRecords};

use crate::board::Core;
use crate::charge_record::ChargeRecord;
use crate::recording::Recording;
use fram_words::{Access, Fram, Place};
use ink_base::limits::TURNS;
use ink_base::{NoMemory, SourceId};
use ink_layout::{Plan, write_first_image};
use job_parts::{Charge, Job, Start};
use push_core::{Port, Pusher};
use sqlite_items::Items;
use std::alloc::Global;

/// The board of a job before its first charge: the words of the job's start, or else those of the first image, no entry of a journal, and
/// room for the entries of every charge and every turn that the job lists. No call of the core takes memory after it.
pub fn prepare(alloc: Global, job: Job) -> Result<Core, NoMemory>
    ensures job { IfOk result (λ core. core.job ≡ job) }
    ensures image { IfOk result (λ core. AreFirstWords job.program job.start core.board.words) }
    ensures board { IfOk result (λ core. core.board ≡ first_board (setup_of job) core.board.words (length job.charges)) }
    ensures stands { IfOk result (λ core. BoardStands (setup_of core.job) core.board) }

    // What the claims on its run rest on: the limits of the job.
    ensures limits { IfOk result (λ _. IsJob job) }
{
    let parts = CoreParts::of(alloc, job)?;
    let core = Core::begin(parts);
    core.stands();
    Ok(core)
}

/// What a core begins with: the job in its parts, and what the job's run needs beside it.
#[derive(Drop)]
pub(crate) struct CoreParts {
    pub plan: Plan,
    pub readings: Items<Items<u32>>,
    pub listed: Items<Charge>,
    pub fram: Fram,
    pub pushers: Vec<Pusher>,
    pub charges: Vec<Recording>,
    pub kept: Vec<ChargeRecord>,
    pub start: Option<Start>,
}

impl CoreParts {
    fn of(alloc: Global, job: Job) -> Result<CoreParts, NoMemory>
        ensures job { IfOk result (λ parts. job_of parts.plan.accepted parts.readings parts.listed parts.start ≡ job) }
        ensures limits { IfOk result (λ parts. IsJob (job_of parts.plan.accepted parts.readings parts.listed parts.start)) }
        ensures image { IfOk result (λ parts. AreFirstWords parts.plan.accepted parts.start parts.fram) }
        ensures first { IfOk result (λ parts. StandsFirst (setup_of (job_of parts.plan.accepted parts.readings parts.listed parts.start)) parts.fram) }
        ensures pushers { IfOk result (λ parts. AreFirstPushers parts.plan.accepted (length parts.plan.accepted.sources) parts.pushers.items) }
        ensures charges { IfOk result (λ parts. AreFirstRecords (job_of parts.plan.accepted parts.readings parts.listed parts.start) (length parts.listed) parts.charges.items) }
        ensures empty { IfOk result (λ parts. parts.kept.items ≡ []) }
        ensures space { IfOk result (λ parts. length parts.listed ≤ vec_capacity parts.kept) }
    {
        let charges = first_records(alloc, &job)?;
        let kept = Vec::with_capacity(alloc, job.charges().len())?;
        let (accepted, readings, listed, start) = job.into_parts();
        let plan = Plan::new(alloc, accepted)?;
        let mut fram = Fram::new(alloc, plan.layout.words)?;
        write_first_words(&mut fram, &plan, &start);
        let pushers = first_pushers(alloc, &plan)?;
        Ok(CoreParts {
            plan,
            readings,
            listed,
            fram,
            pushers,
            charges,
            kept,
            start,
        })
    }
}

/// Writes the words with which a run begins over those of the program's board. It takes no memory.
pub(crate) fn write_first_words(fram: &mut Fram, plan: &Plan, start: &Option<Start>)
    requires count { length fram.old ≡ words_of (shape_of plan.now.accepted) }
    requires start { ForSome start.now (FitsBoard plan.now.accepted) }
    ensures { AreFirstWords plan.now.accepted start.now fram.new }
{
    match start {
        None => write_first_image(fram, &plan.accepted, &plan.layout),
        Some(start) => write_words(fram, start.words.as_slice()),
    }
}

// Writes as many words over those of a board.
fn write_words(fram: &mut Fram, words: &[u64])
    requires { length fram.old ≡ length words.now }
    ensures { fram.new ≡ words.now }
{
    for addr in 0..fram.len() {
        fram.perform(Access::Store(addr, words[addr as usize]));
    }
}

fn first_pushers(alloc: Global, plan: &Plan) -> Result<Vec<Pusher>, NoMemory>
    ensures { IfOk result (λ pushers. AreFirstPushers plan.now.accepted (length plan.now.accepted.sources) pushers.items) }
{
    let mut pushers = Vec::new(alloc);
    for i in 0..plan.program().sources.len() {
        pushers.push(Pusher::boot(port_at(plan, i)))?;
    }
    Ok(pushers)
}

// Where the words of a source stand.
fn port_at(plan: &Plan, i: usize) -> Port
    requires { i < length plan.now.accepted.sources }
    ensures port { result ≡ port_in plan.now.accepted i }
    ensures right { IsPort result }
{
    let thread = plan.program().sources.as_slice()[i];
    let source = SourceId(i as u8);
    Port {
        source,
        queue: plan.layout.queues.as_slice()[thread.0 as usize],
        ack: plan.address(Place::Ack { source }),
        src: plan.address(Place::Src { source }),
    }
}

fn first_records(alloc: Global, job: &Job) -> Result<Vec<Recording>, NoMemory>
    ensures { IfOk result (λ records. AreFirstRecords job.now (length job.now.charges) records.items) }
{
    let mut records = Vec::new(alloc);
    for k in 0..job.charges().len() {
        records.push(first_record(alloc, job, k)?)?;
    }
    Ok(records)
}

fn first_record(alloc: Global, job: &Job, k: usize) -> Result<Recording, NoMemory>
    requires { k < length job.now.charges }
    ensures { IfOk result (λ r. IsFirstRecord job.now k r) }
{
    let sources = job.readings().len();
    let room = turns_in(job.charges(), k) as usize + 1;
    Recording::new(alloc, sources, room)
}

// The turns that a charge lists.
pub(crate) fn turns_in(charges: &[Charge], k: usize) -> u64
    requires known { k < length charges.now }
    requires few { charge_turns charges.now ≤ TURNS }
    ensures turns { result ≡ item_turns (slice_index_or charges.now k no_charge).items }
    ensures few { result ≤ TURNS }
{
    let mut turns = 0;
    for item in charges[k].items.as_slice() {
        turns += item.count as u64;
    }
    turns
}
