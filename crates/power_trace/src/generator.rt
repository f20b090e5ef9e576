//! A generator of numbers, and what is drawn from it.

ghost use Rattle.std.specs.Prelude.{◌≡◌, ◌/◌, ◌^◌, IfOk};
ghost use Rattle.power_trace.specs.Soak.{next_state, state_after, draws, drawn_charge};

use ink_base::{Actor, NoMemory, SourceId};
use job_parts::{Charge, Item};
use sqlite_items::Items;
use std::alloc::Global;

/// A linear congruential generator modulo 2^32.
#[derive(Drop)]
pub struct Generator {
    pub state: u32,
}

impl Generator {
    /// The next state, of which the upper 16 bits are drawn.
    pub fn draw(&mut self) -> u32
        ensures state { self.new.state ≡ next_state self.old.state }
        ensures drawn { result ≡ next_state self.old.state / 2 ^ 16 }
    {
        self.state = self.state.wrapping_mul(1664525).wrapping_add(1013904223);
        self.state >> 16
    }
}

/// So many draws as readings.
pub fn drawn_readings(
    alloc: Global,
    generator: &mut Generator,
    count: usize,
) -> Result<Items<u32>, NoMemory>
    ensures state { IfOk result (λ _. generator.new.state ≡ state_after generator.old.state count) }
    ensures readings { IfOk result (λ values. values ≡ draws generator.old.state 0 count) }
{
    let mut values = Items::new(alloc);
    for _i in 0..count {
        values.push(generator.draw())?;
    }
    Ok(values)
}

/// The charge of five draws.
pub fn drawn_charge(alloc: Global, generator: &mut Generator) -> Result<Charge, NoMemory>
    ensures state { IfOk result (λ _. generator.new.state ≡ state_after generator.old.state 5) }
    ensures charge { IfOk result (λ charge. charge ≡ drawn_charge generator.old.state 0) }
{
    let off = generator.draw() % 8;
    let first = generator.draw() % 16;
    let kernel = generator.draw() % 512;
    let second = generator.draw() % 16;
    let clock = generator.draw() % 4;
    let items = [
        Item {
            actor: Actor::Source(SourceId(0)),
            count: first,
        },
        Item {
            actor: Actor::Kernel,
            count: kernel,
        },
        Item {
            actor: Actor::Source(SourceId(1)),
            count: second,
        },
        Item {
            actor: Actor::Clock,
            count: clock,
        },
    ];
    Ok(Charge {
        off,
        items: Items::from_slice(alloc, items.as_slice())?,
    })
}
