//! A charge of all actors at once.

ghost use Rattle.std.specs.Prelude.{◌≡◌, ◌<◌, ◌≤◌, length};
ghost use Rattle.std.specs.Thread.{IsSync};
ghost use Rattle.ink_base.specs.declared.actor.Actor.TheVariants as actors;
ghost use Rattle.job_parts.specs.Job.{item_turns};
ghost use Rattle.live_account.specs.Turns.{source, turns_for};
ghost use Rattle.live_board.specs.kept.Runs.{CanRun, CanAllRun, SourceRuns, EachRuns, KernelCanRun, KernelRuns, ClockCanRun, ClockRuns};

use crate::turns::turns_for;
use event_queue::QueueSet;
use ink_base::limits::{SOURCES, TURNS};
use ink_base::{Actor, SourceId};
use irq_source::{Gate, SourceActor};
use job_parts::Charge;
use kernel_actor::{ClockActor, KernelActor};
use std::thread::{Threads, for_each_mut, join_mut};

// A source makes the accesses of its turns.
fn run_source<G: Gate>(set: &QueueSet, actor: &mut SourceActor, turns: u32, gate: &G)
    requires { CanRun set.now actor.old }
    ensures { SourceRuns set.now turns actor.old actor.new }
{
    let _spent = actor.run_charge(set, turns, gate);
}

// The turns that a charge lists for the source of this number.
fn source_turns(number: usize, charge: &Charge) -> u32
    requires number { number < SOURCES }
    requires turns { item_turns charge.now.items ≤ TURNS }
    ensures { result ≡ turns_for (source number) charge.now }
{
    turns_for(Actor::Source(SourceId(number as u8)), charge)
}

// A source makes the accesses of the turns that the charge lists for it.
fn run_listed<G: Gate>(
    set: &QueueSet,
    number: usize,
    actor: &mut SourceActor,
    charge: &Charge,
    gate: &G,
)
    requires number { number < SOURCES }
    requires turns { item_turns charge.now.items ≤ TURNS }
    requires actor { CanRun set.now actor.old }
    ensures { SourceRuns set.now (turns_for (source number) charge.now) actor.old actor.new }
{
    run_source(set, actor, source_turns(number, charge), gate);
}

// All sources, at once.
fn run_sources<R: Threads + Sync, G: Gate + Sync>(
    runtime: &R,
    set: &QueueSet,
    sources: &mut [SourceActor],
    charge: &Charge,
    gate: &G,
)
    requires few { length sources.old ≤ SOURCES }
    requires turns { item_turns charge.now.items ≤ TURNS }
    requires sources { CanAllRun set.now sources.old }
    ensures { EachRuns set.now charge.now sources.old sources.new }
{
    for_each_mut(
        runtime,
        sources,
        SOURCES,
        &|number, actor| run_listed(set, number, actor, charge, gate),
    );
}

// The kernel makes the accesses of its turns.
fn run_kernel<G: Gate>(set: &QueueSet, kernel: &mut KernelActor, turns: u32, gate: &G)
    requires { KernelCanRun set.now turns kernel.old }
    ensures { KernelRuns set.now turns kernel.old kernel.new }
{
    let _spent = kernel.run_charge(set, turns, gate);
    kernel.ends();
}

// The clock makes its ticks.
fn run_clock(set: &QueueSet, clock: &mut ClockActor, turns: u32)
    requires { ClockCanRun set.now turns clock.old }
    ensures { ClockRuns turns clock.old clock.new }
{
    let _spent = clock.run_charge(set, turns);
}

/// The charge of all actors at once: each source, the kernel and the clock make the accesses of the turns that the charge lists for them.
pub(crate) fn run_at_once<R: Threads + Sync, G: Gate + Sync>(
    runtime: &R,
    set: &QueueSet,
    sources: &mut [SourceActor],
    kernel: &mut KernelActor,
    clock: &mut ClockActor,
    charge: &Charge,
    gate: &G,
)
    requires few { length sources.old ≤ SOURCES }
    requires turns { item_turns charge.now.items ≤ TURNS }
    requires sources { CanAllRun set.now sources.old }
    requires kernel { KernelCanRun set.now (turns_for actors.Kernel charge.now) kernel.old }
    requires clock { ClockCanRun set.now (turns_for actors.Clock charge.now) clock.old }
    ensures sources { EachRuns set.now charge.now sources.old sources.new }
    ensures kernel { KernelRuns set.now (turns_for actors.Kernel charge.now) kernel.old kernel.new }
    ensures clock { ClockRuns (turns_for actors.Clock charge.now) clock.old clock.new }
{
    let kernel_turns = turns_for(Actor::Kernel, charge);
    let ticks = turns_for(Actor::Clock, charge);
    join_mut(
        runtime,
        &mut ||
            requires { IsSync R.row × KernelCanRun set.now kernel_turns kernel.now × ClockCanRun set.now ticks clock.now }
            ensures { KernelRuns set.entry.now kernel_turns kernel.entry.now kernel.exit.now × ClockRuns ticks clock.entry.now clock.exit.now }
        { run_others(runtime, set, kernel, clock, kernel_turns, ticks, gate) },
        &mut ||
            requires { IsSync R.row × IsSync G.row × (length sources.now ≤ SOURCES) × (item_turns charge.now.items ≤ TURNS) × CanAllRun set.now sources.now }
            ensures { EachRuns set.entry.now charge.entry.now sources.entry.now sources.exit.now }
        { run_sources(runtime, set, sources, charge, gate) },
    );
}

// The kernel and the clock, at once.
fn run_others<R: Threads + Sync, G: Gate + Sync>(
    runtime: &R,
    set: &QueueSet,
    kernel: &mut KernelActor,
    clock: &mut ClockActor,
    turns: u32,
    ticks: u32,
    gate: &G,
)
    requires kernel { KernelCanRun set.now turns kernel.old }
    requires clock { ClockCanRun set.now ticks clock.old }
    ensures kernel { KernelRuns set.now turns kernel.old kernel.new }
    ensures clock { ClockRuns ticks clock.old clock.new }
{
    join_mut(
        runtime,
        &mut ||
            requires { KernelCanRun set.now turns kernel.now }
            ensures { KernelRuns set.entry.now turns kernel.entry.now kernel.exit.now }
        { run_kernel(set, kernel, turns, gate) },
        &mut ||
            requires { ClockCanRun set.now ticks clock.now }
            ensures { ClockRuns ticks clock.entry.now clock.exit.now }
        { run_clock(set, clock, ticks) },
    );
}
