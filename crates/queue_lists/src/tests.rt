use crate::{put_events, put_refusals};
use ink_base::{Accept, SourceId};
use irq_source::{Declined, Published};
use live_account::Refusal;
use std::test::*;

const NONE: Accept = Accept {
    source: SourceId(0),
    reading: 0,
    value: 0,
};

#[tactic(auto, using(crate::proofs::Putting::one_position))]
#[test]
fn two_sources_of_a_queue(rt: HostRuntime) -> Result<(), Fail> {
    let mut accepted = Vec::from_array(rt.alloc(), [NONE, NONE])?;
    let mut charges = Vec::from_array(rt.alloc(), [0, 0])?;
    let later = Published {
        position: 1,
        reading: 0,
        value: 7,
        charge: 3,
    };
    put_events(SourceId(0), &[later], &mut accepted, &mut charges);
    let earlier = Published {
        position: 0,
        reading: 2,
        value: 9,
        charge: 1,
    };
    put_events(SourceId(1), &[earlier], &mut accepted, &mut charges);
    let first = Accept {
        source: SourceId(1),
        reading: 2,
        value: 9,
    };
    let second = Accept {
        source: SourceId(0),
        reading: 0,
        value: 7,
    };
    assert_eq!(rt; accepted.as_slice(), [first, second].as_slice());
    assert_eq!(rt; charges.as_slice(), [1, 3].as_slice());
    Ok(())
}

#[test]
fn refusals_have_their_source(rt: HostRuntime) -> Result<(), Fail> {
    let mut refused = Vec::with_capacity(rt.alloc(), 1)?;
    let declined = Declined {
        reading: 4,
        position: 2,
        charge: 1,
    };
    put_refusals(SourceId(3), &[declined], &mut refused);
    let refusal = Refusal {
        source: SourceId(3),
        reading: 4,
        position: 2,
        charge: 1,
    };
    assert_eq!(rt; refused.as_slice(), [refusal].as_slice());
    Ok(())
}
