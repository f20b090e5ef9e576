use crate::gathering::gathered;
use crate::two_sources::{is_of_two, job};
use ink_base::{Accept, JobAnswer, SourceId};
use live_account::Refusal;
use queue_lists::Gathered;
use std::alloc::Global;
use std::test::Fail;

fn event(source: u8, reading: u32, value: u32) -> Accept {
    Accept {
        source: SourceId(source),
        reading,
        value,
    }
}

// The events stand by position, each with its charge.
fn has_three_events(lists: &Gathered) -> bool {
    let events = [event(0, 0, 7), event(1, 0, 9), event(0, 2, 6)];
    match (lists.accepted.as_slice(), lists.charges.as_slice()) {
        ([accepted], [charges]) => {
            accepted.as_slice() == events.as_slice() && charges.as_slice() == [0, 0, 1].as_slice()
        }
        _ => false,
    }
}

// The reading that met the full queue is source 0's.
fn has_one_refusal(lists: &Gathered) -> bool {
    let refusal = Refusal {
        source: SourceId(0),
        reading: 1,
        position: 2,
        charge: 0,
    };
    lists.refused.as_slice() == [refusal].as_slice()
}

fn is_put_together(alloc: Global) -> Result<bool, JobAnswer> {
    let job = job(alloc)?;
    if !is_of_two(&job) {
        return Ok(false);
    }
    let lists = gathered(alloc, &job)?;
    Ok(has_three_events(&lists) && has_one_refusal(&lists))
}

#[test]
fn two_sources_of_a_queue_with_a_refusal(rt: HostRuntime) -> Result<(), Fail> {
    assert!(rt; is_put_together(rt.alloc())?);
    Ok(())
}
