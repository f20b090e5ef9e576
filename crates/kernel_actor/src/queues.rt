//! The queues of a program.
ghost use Rattle.std.specs.Prelude.{◌≡◌, IfOk, map};
ghost use Rattle.event_queue.specs.Rule.{IsLay};
ghost use Rattle.event_queue.specs.Views.{lay_of};
ghost use Rattle.kernel_actor.specs.Lays.{IsLayOf, places_in};

use event_queue::Shape;
use ink_base::{NoMemory, ThreadId};
use prog_check::Accepted;
use std::alloc::Global;

/// The places of each thread's queue, and the queue of each source, as the program declares them. Sets can be made of them.
#[tactic(auto, using(crate::proofs::ProgramLays::program_lay))]
pub fn queues_of(alloc: Global, program: &Accepted) -> Result<Shape, NoMemory>
    ensures lay { IfOk result (λ shape. IsLayOf program.now (lay_of shape)) }
    ensures limits { IfOk result (λ shape. IsLay (lay_of shape)) }
{
    // The program is accepted, so its queues are within their limits.
    let _program = program.program();
    let places = places_of(alloc, program)?;
    let sources = sources_of(alloc, program)?;
    Ok(Shape { places, sources })
}

// The places of each thread's queue.
#[tactic(auto, using(std::proofs::lemmas::List::map_more))]
fn places_of(alloc: Global, program: &Accepted) -> Result<Vec<u8>, NoMemory>
    ensures { IfOk result (λ places. places.items ≡ map places_in program.now.threads) }
{
    let mut places = Vec::new(alloc);
    for thread in program.program().threads.as_slice() {
        places.push(thread.queue)?;
    }
    Ok(places)
}

// The thread of each source.
fn sources_of(alloc: Global, program: &Accepted) -> Result<Vec<ThreadId>, NoMemory>
    ensures { IfOk result (λ sources. sources.items ≡ program.now.sources) }
{
    let mut sources = Vec::new(alloc);
    for source in program.program().sources.as_slice() {
        sources.push(*source)?;
    }
    Ok(sources)
}
