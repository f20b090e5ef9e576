//! What a task begins with, and what it leaves behind.

ghost use Rattle.std.specs.Prelude.{◌≡◌, ◌==◌, ◌<◌, ◌^◌, length, position, IfOk};
ghost use Rattle.task_isa.specs.declared.program.Task.{Task};
ghost use Rattle.prog_check.specs.Accepted.{IsAccepted};
ghost use Rattle.prog_check.specs.Lookup.{first_task};
ghost use Rattle.never_cut.specs.Commit.{end_at, room_in, rooms, start_at, task_at};
ghost use Rattle.never_cut.specs.Within.{HasRoom};
ghost use Rattle.never_cut.specs.Replaying.{model_of};

use crate::kept_outputs::count_of;
use crate::replaying::Replaying;
use ink_base::{Event, NoMemory, TaskId, ThreadId};
use sqlite_items::Items;
use std::alloc::Global;
use task_isa::{PipeDef, Program, Task, TaskEnd, TaskStart, eval_task};

impl Replaying {
    /// What the task that serves an event leaves behind.
    pub(crate) fn evaluate(
        &self,
        alloc: Global,
        program: &Program,
        thread: ThreadId,
        event: Event,
        time: u64,
    ) -> Result<TaskEnd, NoMemory>
        requires accepted { IsAccepted program.now }
        requires room { HasRoom program.now (model_of self.now) }
        requires thread { thread.0 < length program.now.threads }
        requires time { time < 2 ^ 47 }
        ensures { IfOk result (λ end. end ≡ end_at program.now (model_of self.now) thread.0 event time) }
    {
        let start = self.start(alloc, program, thread, event, time)?;
        eval_task(
            alloc,
            program,
            self.task_at(program, usize::from(thread.0)),
            &start,
        )
    }

    fn start(
        &self,
        alloc: Global,
        program: &Program,
        thread: ThreadId,
        event: Event,
        time: u64,
    ) -> Result<TaskStart, NoMemory>
        requires room { HasRoom program.now (model_of self.now) }
        requires thread { thread.0 < length program.now.threads }
        ensures { IfOk result (λ start. start ≡ start_at program.now (model_of self.now) thread.0 event time) }
    {
        let t = usize::from(thread.0);
        let log = u64::from(program.threads.as_slice()[t].log);
        Ok(TaskStart {
            state: Items::from_slice(alloc, self.thread(t).state.as_slice())?,
            event,
            time,
            room: self.rooms(alloc, program)?,
            log_room: log.saturating_sub(count_of(&self.outputs, thread)) as u32,
        })
    }

    /// How many items each pipe has room for.
    fn rooms(&self, alloc: Global, program: &Program) -> Result<Items<u32>, NoMemory>
        ensures { IfOk result (λ it. it ≡ rooms program.now (model_of self.now)) }
    {
        let pipes = program.pipes.as_slice();
        let mut rooms = Vec::new(alloc);
        for q in 0..pipes.len() {
            rooms.push(self.room_in(q, &pipes[q]))?;
        }
        Ok(Items::from_vec(rooms))
    }

    fn room_in(&self, q: usize, pipe: &PipeDef) -> u32
        ensures { result ≡ room_in (model_of self.now) (q, pipe.now) }
    {
        let held = match self.pipes.get(q) {
            Some(pipe) => pipe.items.len(),
            None => 0,
        };
        usize::from(pipe.places).saturating_sub(held) as u32
    }

    /// The task that the thread's service goes on with, or begins with.
    fn task_at(&self, program: &Program, t: usize) -> TaskId
        requires accepted { IsAccepted program.now }
        requires room { HasRoom program.now (model_of self.now) }
        requires thread { t < length program.now.threads }
        ensures task { result.0 ≡ task_at program.now (model_of self.now) t }
        ensures there { result.0 < length program.now.tasks }
    {
        match self.thread(t).running {
            Some(task) => task,
            None => TaskId(first_task(program, t) as u16),
        }
    }
}

/// The first task of a thread.
fn first_task(program: &Program, t: usize) -> usize
    requires accepted { IsAccepted program.now }
    requires thread { t < length program.now.threads }
    ensures task { result ≡ first_task program.now t }
    ensures there { result < length program.now.tasks }
{
    let tasks = program.tasks.as_slice();
    position_of(tasks, t).unwrap_or(tasks.len())
}

fn position_of(tasks: &[Task], t: usize) -> Option<usize>
    ensures { result ≡ position (λ (task : Task). task.thread.0 == t) tasks.now }
{
    tasks
        .iter()
        .position(|task| usize::from(task.thread.0) == t)
}
