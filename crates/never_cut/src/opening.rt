//! The state at the start of a program.

ghost use Rattle.std.specs.Prelude.{◌≡◌, map, IfOk};
ghost use Rattle.never_cut.specs.State.{open_model, open_pipe, open_source, open_thread, open_timer};
ghost use Rattle.never_cut.specs.Replaying.{model_of};

use crate::kept_outputs::no_outputs;
use crate::pipe_model::PipeModel;
use crate::replaying::Replaying;
use crate::source_model::SourceModel;
use crate::thread_model::ThreadModel;
use crate::timer_model::TimerModel;
use ink_base::{NoMemory, ThreadId};
use sqlite_items::Items;
use std::alloc::Global;
use task_isa::{PipeDef, Program, ThreadDef, TimerDef};

impl Replaying {
    /// A replay that begins at the state of the first image.
    pub fn open(alloc: Global, program: &Program) -> Result<Replaying, NoMemory>
        ensures { IfOk result (λ r. model_of r ≡ open_model program.now) }
    {
        Ok(Replaying {
            threads: threads_at_start(alloc, program.threads.as_slice())?,
            pipes: pipes_at_start(alloc, program.pipes.as_slice())?,
            timers: timers_at_start(alloc, program.timers.as_slice())?,
            sources: sources_at_start(alloc, program.sources.as_slice())?,
            clock: 0,
            outputs: no_outputs(alloc),
            commits: 0,
            scan: None,
        })
    }
}

fn threads_at_start(alloc: Global, threads: &[ThreadDef]) -> Result<Vec<ThreadModel>, NoMemory>
    ensures { IfOk result (λ v. v.items ≡ map open_thread threads.now) }
{
    let mut models = Vec::new(alloc);
    for thread in threads {
        models.push(idle_thread(alloc, thread)?)?;
    }
    Ok(models)
}

fn idle_thread(alloc: Global, thread: &ThreadDef) -> Result<ThreadModel, NoMemory>
    ensures { IfOk result (λ x. x ≡ open_thread thread.now) }
{
    let state = vec![in alloc; 0; usize::from(thread.state)]?;
    Ok(ThreadModel {
        state: Items::from_vec(state),
        running: None,
        event: None,
        first: 0,
        held: Items::new(alloc),
        finished: false,
        released: 0,
        served: 0,
        trapped: 0,
        expired: 0,
    })
}

fn pipes_at_start(alloc: Global, pipes: &[PipeDef]) -> Result<Vec<PipeModel>, NoMemory>
    ensures { IfOk result (λ v. v.items ≡ map open_pipe pipes.now) }
{
    let mut models = Vec::new(alloc);
    for _pipe in pipes {
        let items = Items::new(alloc);
        models.push(PipeModel { items, taken: 0 })?;
    }
    Ok(models)
}

fn timers_at_start(alloc: Global, timers: &[TimerDef]) -> Result<Vec<TimerModel>, NoMemory>
    ensures { IfOk result (λ v. v.items ≡ map open_timer timers.now) }
{
    Ok(timers.iter().map(timer_at_start).collect(alloc)?)
}

fn timer_at_start(timer: &TimerDef) -> TimerModel
    ensures { result ≡ open_timer timer.now }
{
    TimerModel {
        due: timer.due.map(u64::from),
        period: timer.period,
    }
}

fn sources_at_start(alloc: Global, sources: &[ThreadId]) -> Result<Vec<SourceModel>, NoMemory>
    ensures { IfOk result (λ v. v.items ≡ map open_source sources.now) }
{
    Ok(sources.iter().map(source_at_start).collect(alloc)?)
}

fn source_at_start(_thread: &ThreadId) -> SourceModel
    ensures { result ≡ open_source _thread.now }
{
    SourceModel {
        next: 0,
        accepted: 0,
        refused: false,
    }
}
