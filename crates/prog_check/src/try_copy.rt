//! Copies of what a program declares.

ghost use Rattle.std.specs.Prelude.{◌≡◌, IfOk};

use ink_base::NoMemory;
use sqlite_items::Items;
use std::alloc::Global;
use task_isa::{PipeDef, Program, Task, ThreadDef, TimerDef};

/// What can be copied where there is memory.
pub trait TryCopy {
    /// An equal value.
    fn try_copy(&self, alloc: Global) -> Result<Self, NoMemory>
        ensures { IfOk result (λ copy. copy ≡ self.now) };
}

/// An equal list.
pub fn copies<T: TryCopy + Drop>(alloc: Global, items: &[T]) -> Result<Items<T>, NoMemory>
    ensures { IfOk result (λ copy. copy ≡ items.now) }
{
    let mut copies = Items::new(alloc);
    for item in items {
        copies.push(item.try_copy(alloc)?)?;
    }
    Ok(copies)
}

impl TryCopy for ThreadDef {
    fn try_copy(&self, alloc: Global) -> Result<ThreadDef, NoMemory> {
        Ok(ThreadDef {
            name: self.name.copy(alloc)?,
            priority: self.priority,
            queue: self.queue,
            state: self.state,
            log: self.log,
            expires: self.expires,
        })
    }
}

impl TryCopy for PipeDef {
    fn try_copy(&self, alloc: Global) -> Result<PipeDef, NoMemory> {
        Ok(PipeDef {
            name: self.name.copy(alloc)?,
            places: self.places,
            writer: self.writer,
            reader: self.reader,
        })
    }
}

impl TryCopy for TimerDef {
    fn try_copy(&self, alloc: Global) -> Result<TimerDef, NoMemory> {
        Ok(TimerDef {
            name: self.name.copy(alloc)?,
            thread: self.thread,
            due: self.due,
            period: self.period,
        })
    }
}

impl TryCopy for Task {
    fn try_copy(&self, alloc: Global) -> Result<Task, NoMemory> {
        let code = Items::from_slice(alloc, self.code.as_slice())?;
        Ok(Task {
            name: self.name.copy(alloc)?,
            thread: self.thread,
            limit: self.limit,
            code,
        })
    }
}

impl TryCopy for Program {
    fn try_copy(&self, alloc: Global) -> Result<Program, NoMemory> {
        Ok(Program {
            threads: copies(alloc, self.threads.as_slice())?,
            sources: Items::from_slice(alloc, self.sources.as_slice())?,
            pipes: copies(alloc, self.pipes.as_slice())?,
            timers: copies(alloc, self.timers.as_slice())?,
            tasks: copies(alloc, self.tasks.as_slice())?,
        })
    }
}
