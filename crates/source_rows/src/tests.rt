//! Runs of a source.
mod opening;
mod running;

use ink_base::NoMemory;
use irq_source::{Declined, NoGate, Published};
use opening::open;
use running::{cut_after, released_after};
use std::alloc::Global;
use std::test::Fail;

/// A published reading of the source.
fn published(position: u32, reading: u32, value: u32, charge: u32) -> Published {
    Published {
        position,
        reading,
        value,
        charge,
    }
}

/// A refused reading of the source.
fn declined(reading: u32, position: u32, charge: u32) -> Declined {
    Declined {
        reading,
        position,
        charge,
    }
}

/// Three readings on a queue with four places: six accesses of the boot, and five for each reading.
fn publishes_three(alloc: Global) -> Result<bool, NoMemory> {
    let readings = vec![in alloc; 7, 8, 9]?;
    let (set, _kernel, mut source) = open(alloc, 4, readings, 1)?;
    source.cut();
    let spent = source.run_charge(&set, 100, &NoGate);
    let parts = source.into_parts();
    let all = vec![in alloc;
        published(0, 0, 7, 0),
        published(1, 1, 8, 0),
        published(2, 2, 9, 0),
    ]?;
    Ok(
        spent.steps == 21
            && parts.src == (3 << 32) + 3
            && parts.accepted == all
            && parts.refused.is_empty(),
    )
}

#[test]
fn a_source_publishes_its_readings(rt: HostRuntime) -> Result<(), Fail> {
    assert!(rt; publishes_three(rt.alloc())?);
    Ok(())
}

/// Four readings on a queue with two places, the first charge being cut after `accesses`. The first two are published by the 7th and the 12th
/// access, the others are refused by the 16th and the 19th. A cut just after a refusal has it made once more.
fn is_cut_right(alloc: Global, accesses: u32) -> Result<bool, NoMemory> {
    let readings = vec![in alloc; 5, 6, 7, 8]?;
    let parts = cut_after(alloc, 2, readings, accesses)?;
    let first = if accesses < 7 { 1 } else { 0 };
    let second = if accesses < 12 { 1 } else { 0 };
    let both = vec![in alloc; published(0, 0, 5, first), published(1, 1, 6, second)]?;
    let mut refused = Vec::new(alloc);
    if accesses >= 16 {
        refused.push(declined(2, 2, 0))?;
    }
    if accesses < 17 {
        refused.push(declined(2, 2, 1))?;
    }
    if accesses >= 19 {
        refused.push(declined(3, 2, 0))?;
    }
    if accesses < 20 {
        refused.push(declined(3, 2, 1))?;
    }
    Ok(parts.src == (4 << 32) + 2 && parts.accepted == both && parts.refused == refused)
}

#[test]
fn a_cut_at_each_access(rt: HostRuntime) -> Result<(), Fail> {
    for accesses in 0..22 {
        assert!(rt; is_cut_right(rt.alloc(), accesses)?);
    }
    Ok(())
}

/// A charge is cut when the first of three readings is published and not yet stored. Its event is served and released before the next charge,
/// and the boot finds by ACK that it was published: it isn't published again, and the two others have room.
fn is_found_by_ack(alloc: Global) -> Result<bool, NoMemory> {
    let readings = vec![in alloc; 5, 6, 7]?;
    let (served, parts) = released_after(alloc, 2, readings, 7)?;
    let all = vec![in alloc;
        published(0, 0, 5, 0),
        published(1, 1, 6, 1),
        published(2, 2, 7, 1),
    ]?;
    Ok(
        served == Some(5)
            && parts.src == (3 << 32) + 3
            && parts.accepted == all
            && parts.refused.is_empty(),
    )
}

#[test]
fn a_released_event_is_found_by_ack(rt: HostRuntime) -> Result<(), Fail> {
    assert!(rt; is_found_by_ack(rt.alloc())?);
    Ok(())
}
