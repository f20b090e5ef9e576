//! A board on which tests let a task run.

ghost use Rattle.std.specs.Prelude.{◌≡◌, ◌<◌, IsTrue};
ghost use Rattle.prog_check.specs.Lookup.{thread_def};
ghost use Rattle.task_isa.specs.Acts.{number_of};
ghost use Rattle.fram_words.specs.Held.{FitsOrigin};
ghost use Rattle.task_run.specs.Fits.{FitsChain, FitsExecution, FitsPhase, FitsSending, FitsSetting, FitsTask, FitsWord};

use crate::fixtures::plan;
use fram_words::{Access, Fram};
use ink_base::limits::{INSTRUCTIONS, PIPES, QUEUE_PLACES, TASK_LIMIT, TIMERS};
use ink_base::{Origin, TaskId};
use ink_layout::{KernelPoint, Pick, Plan};
use task_isa::{Program, ThreadDef};
use task_run::{Execution, Phase, Sending, TaskMachine};

// The access of an instruction can be made.
fn is_executing(program: &Program, x: &Execution) -> bool
    ensures { IsTrue result → FitsExecution program.now x.now }
{
    match program.tasks.as_slice().get(x.task.0 as usize) {
        Some(task) => (x.at as usize) < task.code.len()
            && (x.at as usize) < INSTRUCTIONS
            && x.executed < TASK_LIMIT as u32
            && x.executed < task.limit as u32,
        None => false,
    }
}

// The origin's numbers fit their bits.
fn is_origin(origin: Origin) -> bool
    ensures { IsTrue result → FitsOrigin origin }
{
    match origin {
        Origin::Source { .. } | Origin::Pipe { .. } => true,
        Origin::Timer { deadline, .. } => deadline < 1 << 48,
    }
}

// The event is of a pipe or a timer, whose number is within the limits.
fn is_device(origin: Origin) -> bool
    ensures pipe { IsTrue result → number_of origin < PIPES }
    ensures timer { IsTrue result → number_of origin < TIMERS }
{
    match origin {
        Origin::Source { .. } => false,
        Origin::Pipe { pipe, .. } => (pipe.0 as usize) < PIPES,
        Origin::Timer { timer, .. } => (timer.0 as usize) < TIMERS,
    }
}

// A chain that goes on began at or before the scan.
fn is_chain(expires: Option<u32>, running: Option<TaskId>, first: u64, time: u64) -> bool
    ensures { IsTrue result → FitsChain expires running first time }
{
    match (expires, running) {
        (Some(_), Some(_)) => first <= time,
        _ => true,
    }
}

// An instruction is executed that sends to a pipe of the program.
fn is_sending(program: &Program, x: &Execution, sending: Sending) -> bool
    ensures { IsTrue result → FitsSending program.now x.now sending }
{
    is_executing(program, x) && (sending.pipe as usize) < program.pipes.len()
}

// An instruction is executed that sets a timer of the program.
fn is_setting(program: &Program, x: &Execution, timer: u32) -> bool
    ensures { IsTrue result → FitsSetting program.now x.now timer }
{
    is_executing(program, x) && (timer as usize) < program.timers.len()
}

// The numbers of the phase are in their ranges.
fn is_phase(program: &Program, machine: &TaskMachine, def: &ThreadDef) -> bool
    requires { def.now ≡ thread_def program.now machine.now.pick.thread.0 }
    ensures { IsTrue result → FitsPhase program.now machine.now machine.now.phase }
{
    let pick = &machine.pick;
    let x = &machine.execution;
    match machine.phase {
        Phase::WriteOrigin => is_origin(pick.event.origin),
        Phase::WriteTaken => is_device(pick.event.origin) && pick.taken < 1 << 32,
        Phase::ReadPeriod => is_device(pick.event.origin)
            && 1 <= pick.due_word
            && pick.due_word <= 1 << 48,
        Phase::WriteDue { .. } => is_device(pick.event.origin),
        Phase::Resume => {
            is_executing(program, x) && is_chain(def.expires, pick.running, pick.first, pick.time)
        }
        Phase::Fetch | Phase::WriteCount { .. } => is_executing(program, x),
        Phase::ReadState { index, .. } | Phase::WriteState { index, .. } => {
            is_executing(program, x) && index < def.state as u32
        }
        Phase::StoreLog { index, .. } => index < def.log as u32,
        Phase::LoadReader { sending } | Phase::LoadTaken { sending, .. } => {
            is_sending(program, x, sending)
        }
        Phase::ReadWritten { sending, taken } => {
            is_sending(program, x, sending) && taken < 1 << 32
        }
        Phase::StoreItem { sending, written } | Phase::WriteWritten { sending, written } => {
            is_sending(program, x, sending) && written < 1 << 33
        }
        Phase::WriteArmed { timer, .. }
        | Phase::WritePeriod { timer, .. }
        | Phase::WriteStopped { timer } => is_setting(program, x, timer),
        Phase::StoreAck { source, .. } => (source.0 as usize) < program.sources.len(),
        Phase::Over => false,
        _ => true,
    }
}

// The machine's next access can be made.
fn can_want(program: &Program, machine: &TaskMachine) -> bool
    ensures { IsTrue result → FitsTask program.now machine.now }
{
    match program
        .threads
        .as_slice()
        .get(machine.pick.thread.0 as usize)
    {
        Some(def) => def.queue <= QUEUE_PLACES
            && machine.pick.position < 1000
            && machine.pick.time < 1000
            && machine.stamp < 1000
            && is_phase(program, machine, def),
        None => false,
    }
}

// This word can be taken.
fn can_take(program: &Program, phase: Phase, word: u64) -> bool
    ensures { IsTrue result → FitsWord program.now phase word }
{
    match phase {
        Phase::ReadPeriod | Phase::LoadTaken { .. } => word < 1 << 32,
        Phase::ReadWritten { sending, taken } => {
            match program.pipes.as_slice().get(sending.pipe as usize) {
                Some(pipe) => taken < 1000 && taken <= word && word <= taken + pipe.places as u64,
                None => false,
            }
        }
        Phase::ReadTotal => word < u64::MAX,
        _ => true,
    }
}

// Makes an access that lies on the board, and answers the word that it found.
fn made(fram: &mut Fram, access: Access) -> Option<u64> {
    match access {
        Access::Load(addr) if addr < fram.len() => Some(fram.perform(Access::Load(addr))),
        Access::Store(addr, word) if addr < fram.len() => Some(fram.perform(Access::Store(
            addr, word,
        ))),
        _ => None,
    }
}

// One access of the machine, and what it means; none where it can't be made.
fn step(plan: &Plan, fram: &mut Fram, machine: &mut TaskMachine) -> Option<KernelPoint> {
    if !can_want(plan.program(), machine) {
        return None;
    }
    let word = made(fram, machine.want(plan))?;
    if can_take(plan.program(), machine.phase, word) {
        Some(machine.take(plan, word))
    } else {
        None
    }
}

// The numbers of the first accesses that commit and that release, counted from 1; 0 for none.
pub(crate) fn numbers(plan: &Plan, fram: &mut Fram, pick: Pick, stamp: u64) -> (u32, u32) {
    let mut machine = TaskMachine::begin(pick, stamp);
    let mut committed = 0;
    for n in 1..200 {
        match step(plan, fram, &mut machine) {
            Some(KernelPoint::Commit(_)) => committed = n,
            Some(KernelPoint::Release(_)) => return (committed, n),
            Some(_) => {}
            None => return (committed, 0),
        }
    }
    (committed, 0)
}
