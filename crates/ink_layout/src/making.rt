//! The layout of a program.

ghost use Rattle.std.specs.Prelude.{◌≡◌, ◌+◌, ◌*◌, ◌<◌, ◌≤◌, length, slice_index, IfOk};
ghost use Rattle.prog_check.specs.Accepted.{IsAccepted};
ghost use Rattle.ink_layout.specs.Layouts.{IsLayout, IsMadeOf, IsPart, AreThreadPlaces, AreQueuePlaces, sources_from};
ghost use Rattle.ink_layout.specs.Apart.{LieApart, LieWithin, AreDivided};

use crate::starts::{region_lengths, starts_of};
use fram_words::{Header, Layout, QueuePlace, ThreadPlace};
use ink_base::limits::BOARD_WORDS;
use ink_base::{Addr, NoMemory};
use prog_check::Accepted;
use sqlite_items::Items;
use std::alloc::Global;
use task_isa::{Program, ThreadDef};

/// Where the words of a program stand, in the order of their addresses from 0 on. Private: the code of all tasks; of each thread the
/// commit word, the pages with two places each, and the log; and the ring of each pipe. Shared: of each thread's queue the tail and
/// the slots; the ACK of each source; and the clock. Then the SRC of each source.
pub fn make_layout(alloc: Global, program: &Accepted) -> Result<Layout, NoMemory>
    ensures layout { IfOk result (λ layout. IsLayout program.now layout) }
    ensures few { IfOk result (λ layout. layout.words < BOARD_WORDS) }
    ensures apart { IfOk result (λ layout. LieApart program.now layout) }
    ensures within { IfOk result (λ layout. LieWithin program.now layout) }
    ensures divided { IfOk result (λ layout. AreDivided program.now layout) }
{
    let layout = layout_of(alloc, program.program())?;
    Ok(layout)
}

fn layout_of(alloc: Global, program: &Program) -> Result<Layout, NoMemory>
    requires { IsAccepted program.now }
    ensures layout { IfOk result (λ layout. IsLayout program.now layout) }
    ensures few { IfOk result (λ layout. layout.words < BOARD_WORDS) }
{
    let lengths = region_lengths(alloc, program)?;
    let starts = starts_of(alloc, lengths.as_slice())?;
    let layout = layout_at(alloc, program, starts.as_slice())?;
    Ok(layout)
}

// The layout of these starts of the regions.
fn layout_at(alloc: Global, program: &Program, starts: &[Addr]) -> Result<Layout, NoMemory>
    requires { length starts.now ≡ sources_from program.now + 4 }
    ensures { IfOk result (λ layout. IsMadeOf program.now starts.now layout) }
{
    let blocks = program.tasks.len();
    let rings = blocks + 3 * program.threads.len();
    let queues = rings + program.pipes.len();
    let sources = queues + 2 * program.threads.len();
    let threads = program.threads.as_slice();
    Ok(Layout {
        tasks: part(alloc, starts, 0, blocks)?,
        threads: thread_places(alloc, threads, starts, blocks)?,
        rings: part(alloc, starts, rings, program.pipes.len())?,
        private: starts[queues],
        queues: queue_places(alloc, threads, starts, queues)?,
        acks: starts[sources],
        clock: starts[sources + 1],
        srcs: starts[sources + 2],
        words: starts[sources + 3],
    })
}

// So many of the starts, from an index on.
fn part(alloc: Global, starts: &[Addr], from: usize, count: usize) -> Result<Items<Addr>, NoMemory>
    requires { from + count ≤ length starts.now }
    ensures { IfOk result (λ part. IsPart starts.now from count part) }
{
    Ok(Items::from_slice(alloc, &starts[from..from + count])?)
}

fn thread_places(
    alloc: Global,
    threads: &[ThreadDef],
    starts: &[Addr],
    from: usize,
) -> Result<Items<ThreadPlace>, NoMemory>
    requires { from + 3 * length threads.now ≤ length starts.now }
    ensures { IfOk result (λ places. AreThreadPlaces threads.now starts.now from (length threads.now) places) }
{
    let mut places = Items::new(alloc);
    for (t, thread) in threads.iter().enumerate() {
        let at = from + 3 * t;
        places.push(ThreadPlace {
            commit: starts[at],
            first: starts[at + 1],
            words: Header::WORDS + thread.state as u32,
            log: starts[at + 2],
        })?;
    }
    Ok(places)
}

fn queue_places(
    alloc: Global,
    threads: &[ThreadDef],
    starts: &[Addr],
    from: usize,
) -> Result<Items<QueuePlace>, NoMemory>
    requires { from + 2 * length threads.now ≤ length starts.now }
    ensures { IfOk result (λ places. AreQueuePlaces threads.now starts.now from (length threads.now) places) }
{
    let mut places = Items::new(alloc);
    for (t, thread) in threads.iter().enumerate() {
        let at = from + 2 * t;
        places.push(QueuePlace {
            tail: starts[at],
            slots: starts[at + 1],
            places: thread.queue,
        })?;
    }
    Ok(places)
}
