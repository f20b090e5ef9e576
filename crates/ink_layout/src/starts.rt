//! Regions of words that stand one after another.

ghost use Rattle.std.specs.Prelude.{◌≡◌, ◌+◌, ◌*◌, ◌<◌, ◌≤◌, ◌^◌, ◌++◌, ◌∷◌, [], map, length, OnOk, IfOk};
ghost use Rattle.fram_words.specs.Shape.{regions, words_before, thread_regions, queue_regions};
ghost use Rattle.prog_check.specs.Accepted.{IsAccepted};
ghost use Rattle.ink_layout.specs.Layouts.{AreStarts};
ghost use Rattle.ink_layout.specs.Shape.{shape_of, task_words, thread_shape, pipe_words, queue_words, AreShort};

use fram_words::Header;
use ink_base::limits::SOURCES;
use ink_base::{Addr, NoMemory};
use std::alloc::Global;
use task_isa::{PipeDef, Program, Task, ThreadDef};

// Where each region begins, and where the last one ends.
pub(crate) fn starts_of(alloc: Global, lengths: &[u32]) -> Result<Vec<Addr>, NoMemory>
    requires { words_before lengths.now (length lengths.now) < 2 ^ 32 }
    ensures { IfOk result (λ starts. AreStarts lengths.now starts.items) }
{
    let mut starts = Vec::new(alloc);
    let mut at = 0;
    for length in lengths {
        starts.push(at)?;
        at += *length;
    }
    starts.push(at)?;
    Ok(starts)
}

// The lengths of a program's regions in the order of their addresses.
pub(crate) fn region_lengths(alloc: Global, program: &Program) -> Result<Vec<u32>, NoMemory>
    requires short { AreShort program.now.tasks }
    requires few { length program.now.sources ≤ SOURCES }
    ensures { IfOk result (λ lengths. lengths.items ≡ regions (shape_of program.now)) }
{
    let mut lengths = Vec::new(alloc);
    add_tasks(&mut lengths, program.tasks.as_slice())?;
    add_blocks(&mut lengths, program.threads.as_slice())?;
    add_rings(&mut lengths, program.pipes.as_slice())?;
    add_queues(&mut lengths, program.threads.as_slice())?;
    let sources = program.sources.len() as u32;
    lengths.push(sources)?;
    lengths.push(1)?;
    lengths.push(sources)?;
    Ok(lengths)
}

fn add_tasks(lengths: &mut Vec<u32>, tasks: &[Task]) -> Result<(), NoMemory>
    requires { AreShort tasks.now }
    ensures { OnOk result (lengths.new.items ≡ lengths.old.items ++ map task_words tasks.now) }
{
    for task in tasks {
        lengths.push(task.code.len() as u32)?;
    }
    Ok(())
}

fn add_blocks(lengths: &mut Vec<u32>, threads: &[ThreadDef]) -> Result<(), NoMemory>
    ensures { OnOk result (lengths.new.items ≡ lengths.old.items ++ thread_regions (map thread_shape threads.now)) }
{
    for thread in threads {
        let pages = Header::WORDS / 8 + (thread.state as u32 + 7) / 8;
        lengths.push(1)?;
        lengths.push(16 * pages)?;
        lengths.push(thread.log as u32)?;
    }
    Ok(())
}

fn add_rings(lengths: &mut Vec<u32>, pipes: &[PipeDef]) -> Result<(), NoMemory>
    ensures { OnOk result (lengths.new.items ≡ lengths.old.items ++ map pipe_words pipes.now) }
{
    for pipe in pipes {
        lengths.push(pipe.places as u32)?;
    }
    Ok(())
}

fn add_queues(lengths: &mut Vec<u32>, threads: &[ThreadDef]) -> Result<(), NoMemory>
    ensures { OnOk result (lengths.new.items ≡ lengths.old.items ++ queue_regions (map queue_words threads.now)) }
{
    for thread in threads {
        lengths.push(1)?;
        lengths.push(thread.queue as u32)?;
    }
    Ok(())
}
