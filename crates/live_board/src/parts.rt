//! A live board before its first charge.
ghost use Rattle.std.specs.Prelude.{◌≡◌, ◌<◌, ◌≤◌, [], length, map, None, IfOk};
ghost use Rattle.ink_base.specs.declared.actor.Actor.TheVariants as actors;
ghost use Rattle.push_core.specs.Table.{IsPort};
ghost use Rattle.job_parts.specs.Job.{charge_turns};
ghost use Rattle.event_queue.specs.Seats.{kernel_view};
ghost use Rattle.event_queue.specs.Views.{calls_of};
ghost use Rattle.kernel_actor.specs.Lays.{IsLayOf};
ghost use Rattle.live_account.specs.Queues.{places_for};
ghost use Rattle.live_account.specs.Turns.{turns_for};
ghost use Rattle.live_board.specs.kept.Boards.{IsBoardAfter};
ghost use Rattle.live_board.specs.kept.Kernels.{IsKernelAfter};
ghost use Rattle.live_board.specs.kept.Parts.{AreFirstSeats, AreFirstSources, IsFirstSeat, IsFirstSource, IsLiveRoomOf};

use crate::turns::turns_for;
use event_queue::{KernelSeat, QueueSet, SourceSeat};
use fram_words::Place;
use ink_base::limits::TURNS;
use ink_base::{Actor, NoMemory, SourceId};
use ink_layout::Plan;
use irq_source::SourceActor;
use job_parts::{Charge, Job};
use kernel_actor::{ClockActor, KernelActor, queues_of};
use push_core::Port;
use queue_lists::{ListRoom, SourceLists};
use std::alloc::Global;

/// A live board: its job, the queues that its actors share, the actors, and the room for what they leave behind.
#[derive(Drop)]
pub struct LiveParts {
    pub job: Job,
    pub set: QueueSet,
    pub sources: Vec<SourceActor>,
    pub kernel: KernelActor,
    pub clock: ClockActor,
    pub room: LiveRoom,
}

/// The room for what the actors leave: their seats, their SRC words, their lists, and the lists of the record.
#[derive(Drop)]
pub struct LiveRoom {
    pub(crate) seats: Vec<SourceSeat>,
    pub(crate) srcs: Vec<u64>,
    pub(crate) ends: Vec<SourceLists>,
    pub(crate) lists: ListRoom,
}

impl LiveRoom {
    fn new(alloc: Global, job: &Job) -> Result<LiveRoom, NoMemory>
        ensures { IfOk result (λ room. IsLiveRoomOf job.now room) }
    {
        let sources = job.accepted().program().sources.len();
        Ok(LiveRoom {
            seats: Vec::with_capacity(alloc, sources)?,
            srcs: Vec::with_capacity(alloc, sources)?,
            ends: Vec::with_capacity(alloc, sources)?,
            lists: ListRoom::new(alloc, job)?,
        })
    }
}

/// A live board before its first charge, of a job whose run begins at the first image of its program. All memory that its run takes is taken
/// here.
pub fn prepare_live(alloc: Global, job: Job) -> Result<LiveParts, NoMemory>
    requires { job.start ≡ None }
    ensures job { IfOk result (λ parts. parts.job ≡ job) }
    ensures board { IfOk result (λ parts. IsBoardAfter job parts.set 0 parts.sources.items parts.kernel parts.clock) }
    ensures room { IfOk result (λ parts. IsLiveRoomOf job parts.room) }
{
    let room = LiveRoom::new(alloc, &job)?;
    let plan = Plan::new(alloc, job.accepted().copy(alloc)?)?;
    let shape = queues_of(alloc, job.accepted())?;
    let (set, kernel, seats, clock) = QueueSet::new(alloc, shape)?;
    let sources = sources_of(alloc, &job, &plan, seats)?;
    let kernel = kernel_of(alloc, &job, plan, kernel)?;
    Ok(LiveParts {
        job,
        set,
        sources,
        kernel,
        clock: ClockActor::new(clock),
        room,
    })
}

// The sources with their seats.
fn sources_of(
    alloc: Global,
    job: &Job,
    plan: &Plan,
    seats: Vec<SourceSeat>,
) -> Result<Vec<SourceActor>, NoMemory>
    requires plan { plan.now.accepted ≡ job.now.program }
    requires seats { AreFirstSeats job.now.program seats.items }
    ensures { IfOk result (λ sources. AreFirstSources job.now seats.items sources.items) }
{
    let mut sources = Vec::with_capacity(alloc, seats.len())?;
    for seat in seats {
        sources.push_reserved(source_of(alloc, job, plan, sources.len(), seat)?);
    }
    Ok(sources)
}

// A source with its seat.
fn source_of(
    alloc: Global,
    job: &Job,
    plan: &Plan,
    number: usize,
    seat: SourceSeat,
) -> Result<SourceActor, NoMemory>
    requires number { number < length job.now.program.sources }
    requires plan { plan.now.accepted ≡ job.now.program }
    requires seat { IsFirstSeat job.now.program number seat }
    ensures { IfOk result (λ source. IsFirstSource job.now number seat source) }
{
    let readings = Vec::from_slice(alloc, job.readings()[number].as_slice())?;
    let charges = job.charges().len() as u32;
    SourceActor::new(alloc, port_at(plan, number), seat, readings, charges)
}

// Where the words of a source stand.
fn port_at(plan: &Plan, number: usize) -> Port
    requires { number < length plan.now.accepted.sources }
    ensures right { IsPort result }
    ensures source { result.source.0 ≡ number }
    ensures places { result.queue.places ≡ places_for plan.now.accepted number }
{
    let thread = plan.program().sources.as_slice()[number];
    let source = SourceId(number as u8);
    Port {
        source,
        queue: plan.layout.queues.as_slice()[thread.0 as usize],
        ack: plan.address(Place::Ack { source }),
        src: plan.address(Place::Src { source }),
    }
}

// The kernel with its seat.
fn kernel_of(
    alloc: Global,
    job: &Job,
    plan: Plan,
    seat: KernelSeat,
) -> Result<KernelActor, NoMemory>
    requires plan { plan.accepted ≡ job.now.program }
    requires lay { IsLayOf plan.accepted (kernel_view seat).lay }
    requires calls { calls_of (kernel_view seat) ≡ [] }
    ensures seat { IfOk result (λ kernel. kernel.seat ≡ seat) }
    ensures after { IfOk result (λ kernel. IsKernelAfter job.now 0 kernel) }
{
    let budgets = budgets_of(alloc, job.charges())?;
    let kernel = KernelActor::new(alloc, plan, seat, budgets.as_slice())?;
    kernel.ends();
    Ok(kernel)
}

// The turns that each charge lists for the kernel.
#[tactic(auto, using(std::proofs::lemmas::List::map_more))]
fn budgets_of(alloc: Global, charges: &[Charge]) -> Result<Vec<u32>, NoMemory>
    requires { charge_turns charges.now ≤ TURNS }
    ensures { IfOk result (λ budgets. budgets.items ≡ map (turns_for actors.Kernel) charges.now) }
{
    let mut budgets = Vec::new(alloc);
    for charge in charges {
        budgets.push(turns_for(Actor::Kernel, charge))?;
    }
    Ok(budgets)
}
