//! Generated jobs.

ghost use Rattle.std.specs.Prelude.{◌≡◌, IfOk};
ghost use Rattle.power_trace.specs.Soak.{last_charge, soak_readings, soak_charges, soak_of};

use crate::generator::{Generator, drawn_charge, drawn_readings};
use crate::soak_program::soak_program;
use ink_base::{Actor, NoMemory, SourceId};
use job_parts::{Charge, Item, Job};
use sqlite_items::Items;
use std::alloc::Global;

// The readings of each source.
const READINGS: usize = 500;

// The charges that are drawn.
const CHARGES: usize = 200;

// The last charge, which is long.
fn last_charge(alloc: Global) -> Result<Charge, NoMemory>
    ensures { IfOk result (λ charge. charge ≡ last_charge) }
{
    let items = [
        Item {
            actor: Actor::Source(SourceId(0)),
            count: 5000,
        },
        Item {
            actor: Actor::Source(SourceId(1)),
            count: 5000,
        },
        Item {
            actor: Actor::Kernel,
            count: 2000,
        },
    ];
    Ok(Charge {
        off: 0,
        items: Items::from_slice(alloc, items.as_slice())?,
    })
}

// The readings and the charges, in the order in which they are drawn.
fn drawn_parts(alloc: Global, number: u32) -> Result<(Items<Items<u32>>, Items<Charge>), NoMemory>
    ensures readings { IfOk result (λ parts. parts.0 ≡ soak_readings number) }
    ensures charges { IfOk result (λ parts. parts.1 ≡ soak_charges number) }
{
    let mut generator = Generator { state: number };
    let first = drawn_readings(alloc, &mut generator, READINGS)?;
    let second = drawn_readings(alloc, &mut generator, READINGS)?;
    let mut readings = Items::new(alloc);
    readings.push(first)?;
    readings.push(second)?;
    let mut charges = Items::new(alloc);
    for _i in 0..CHARGES {
        charges.push(drawn_charge(alloc, &mut generator)?)?;
    }
    charges.push(last_charge(alloc)?)?;
    Ok((readings, charges))
}

/// The job that is generated from a number; equal numbers give equal jobs. The only refusal is that there is no memory.
///
/// Its program has one thread `a`, with a queue of 4 and a log of 4,096 places, two sources that feed it, and a task that adds
/// up what it is given and puts out each sum. Each source has 500 readings. Of the 201 charges 200 are drawn, and the last one
/// is long: 5,000 turns of each source and 2,000 of the kernel.
///
/// For a draw the state x, at first the number, becomes (x * 1664525 + 1013904223) mod 2^32, and its upper 16 bits are drawn.
/// First come the readings of the first source, then those of the second, and then for each charge five draws: the ticks that
/// the board was dark, modulo 8, and the turns of the first source, modulo 16, of the kernel, modulo 512, of the second
/// source, modulo 16, and of the clock, modulo 4.
pub fn soak_job(alloc: Global, number: u32) -> Result<Job, NoMemory>
    ensures { IfOk result (λ job. job ≡ soak_of number) }
{
    let accepted = soak_program(alloc)?;
    let (readings, charges) = drawn_parts(alloc, number)?;
    Ok(Job::new(accepted, readings, charges, None))
}
