//! The pipes, timers and sources that an image tells.

ghost use Rattle.std.specs.Prelude.{◌≡◌, ◌%◌, ◌<◌, ◌≤◌, length, IfOk};
ghost use Rattle.fram_words.specs.Places.{Ring};
ghost use Rattle.fram_words.specs.Steps.{place_of};
ghost use Rattle.ink_layout.specs.Shape.{IsOnBoard};
ghost use Rattle.prog_check.specs.Lookup.{pipe_def, timer_def};
ghost use Rattle.never_cut.specs.Image.{taken_of, written_of};
ghost use Rattle.image_state.specs.Words.{by_place};
ghost use Rattle.image_state.specs.kept.Told.{HasFewSettled, IsImageOf, each_below, told_pipe, told_source_model, told_timer};

use fram_words::{Header, Place, read_due};
use image_told::{header_word, taken, told_source, word_at, written};
use ink_base::{NoMemory, PipeId, SourceId, ThreadId, TimerId};
use ink_layout::Plan;
use never_cut::{PipeModel, SourceModel, TimerModel};
use sqlite_items::Items;
use std::alloc::Global;

/// The pipes in order.
#[tactic(auto, using(crate::proofs::Each::each_more))]
pub(crate) fn pipes_told(
    alloc: Global,
    plan: &Plan,
    words: &[u64],
) -> Result<Vec<PipeModel>, NoMemory>
    requires { IsImageOf plan.now.accepted words.now }
    ensures { IfOk result (λ pipes. pipes.items
        ≡ each_below (told_pipe plan.now.accepted (by_place plan.now.accepted words.now)) (length plan.now.accepted.pipes)) }
{
    let mut pipes = Vec::new(alloc);
    for q in 0..plan.program().pipes.len() {
        pipes.push(pipe_told(alloc, plan, words, PipeId(q as u8))?)?;
    }
    Ok(pipes)
}

#[tactic(auto, using(crate::proofs::Each::each_more))]
fn pipe_told(alloc: Global, plan: &Plan, words: &[u64], pipe: PipeId) -> Result<PipeModel, NoMemory>
    requires image { IsImageOf plan.now.accepted words.now }
    requires known { pipe.0 < length plan.now.accepted.pipes }
    ensures { IfOk result (λ x. x ≡ told_pipe plan.now.accepted (by_place plan.now.accepted words.now) pipe.0) }
{
    let first = taken(plan, words, pipe);
    let count = written(plan, words, pipe) - first;
    let mut items = Vec::new(alloc);
    for k in 0..count {
        items.push(item_told(plan, words, pipe, first + k))?;
    }
    Ok(PipeModel {
        items: Items::from_vec(items),
        taken: first,
    })
}

// The item of this number, which was written and not taken; it has 32 bits.
fn item_told(plan: &Plan, words: &[u64], pipe: PipeId, number: u64) -> u32
    requires image { IsImageOf plan.now.accepted words.now }
    requires known { pipe.0 < length plan.now.accepted.pipes }
    requires left { taken_of plan.now.accepted (by_place plan.now.accepted words.now) pipe.0 ≤ number }
    requires there { number < written_of plan.now.accepted (by_place plan.now.accepted words.now) pipe.0 }
    ensures { result ≡ by_place plan.now.accepted words.now (Ring pipe.0 (number % (pipe_def plan.now.accepted pipe.0).places)) }
{
    word_at(plan, words, ring_place(plan, pipe, number)) as u32
}

// Where the item of this number stands, in the ring of its pipe.
fn ring_place(plan: &Plan, pipe: PipeId, number: u64) -> Place
    requires { pipe.0 < length plan.now.accepted.pipes }
    ensures place { place_of result ≡ Ring pipe.0 (number % (pipe_def plan.now.accepted pipe.0).places) }
    ensures there { IsOnBoard plan.now.accepted (place_of result) }
{
    let places = plan.program().pipes.as_slice()[pipe.0 as usize].places;
    Place::Ring {
        pipe,
        index: (number % places as u64) as u32,
    }
}

/// The timers in order.
#[tactic(auto, using(crate::proofs::Each::each_more))]
pub(crate) fn timers_told(
    alloc: Global,
    plan: &Plan,
    words: &[u64],
) -> Result<Vec<TimerModel>, NoMemory>
    requires { IsImageOf plan.now.accepted words.now }
    ensures { IfOk result (λ timers. timers.items
        ≡ each_below (told_timer plan.now.accepted (by_place plan.now.accepted words.now)) (length plan.now.accepted.timers)) }
{
    let mut timers = Vec::new(alloc);
    for j in 0..plan.program().timers.len() {
        timers.push(timer_told(plan, words, TimerId(j as u8)))?;
    }
    Ok(timers)
}

fn timer_told(plan: &Plan, words: &[u64], timer: TimerId) -> TimerModel
    requires image { IsImageOf plan.now.accepted words.now }
    requires known { timer.0 < length plan.now.accepted.timers }
    ensures { result ≡ told_timer plan.now.accepted (by_place plan.now.accepted words.now) timer.0 }
{
    // The program is accepted, so its timers are few.
    let _program = plan.program();
    let thread = owner(plan, timer);
    let due = header_word(plan, words, thread, Header::Due(timer.0 as u32));
    let period = header_word(plan, words, thread, Header::Period(timer.0 as u32));
    TimerModel {
        due: read_due(due),
        period: period as u32,
    }
}

// The thread of a timer.
fn owner(plan: &Plan, timer: TimerId) -> ThreadId
    requires { timer.0 < length plan.now.accepted.timers }
    ensures owner { result ≡ (timer_def plan.now.accepted timer.0).thread }
    ensures known { result.0 < length plan.now.accepted.threads }
{
    plan.program().timers.as_slice()[timer.0 as usize].thread
}

/// The sources in order; none has settled more readings than a source may have.
#[tactic(auto, using(crate::proofs::Each::each_more))]
pub(crate) fn sources_told(
    alloc: Global,
    plan: &Plan,
    words: &[u64],
) -> Result<Vec<SourceModel>, NoMemory>
    requires image { IsImageOf plan.now.accepted words.now }
    requires few { HasFewSettled plan.now.accepted (by_place plan.now.accepted words.now) }
    ensures { IfOk result (λ sources. sources.items
        ≡ each_below (told_source_model plan.now.accepted (by_place plan.now.accepted words.now)) (length plan.now.accepted.sources)) }
{
    let mut sources = Vec::new(alloc);
    for i in 0..plan.program().sources.len() {
        sources.push(source_told(plan, words, SourceId(i as u8)))?;
    }
    Ok(sources)
}

fn source_told(plan: &Plan, words: &[u64], source: SourceId) -> SourceModel
    requires image { IsImageOf plan.now.accepted words.now }
    requires few { HasFewSettled plan.now.accepted (by_place plan.now.accepted words.now) }
    requires known { source.0 < length plan.now.accepted.sources }
    ensures { result ≡ told_source_model plan.now.accepted (by_place plan.now.accepted words.now) source.0 }
{
    let told = told_source(plan, words, source);
    SourceModel {
        next: told.next as u32,
        accepted: told.accepted as u32,
        refused: false,
    }
}
