//! Two sources of one queue, whose readings are accepted in either order.

ghost use Rattle.std.specs.Prelude.{◌<◌, length};

use crate::fixtures::{joined, lived};
use ink_base::Accept;
use irq_source::NoGate;
use kernel_account::KernelEntry;
use live_account::LiveRecord;
use std::test::Fail;

const PROGRAM: &[u8] =
    b"[program]\nthread a priority 1 queue 2 state 1 log 8\nsource a\nsource a\ntask sum thread a limit 100\nli r1 0\nld r2 r1\nev r3\nadd r2 r2 r3\nst r2 r1\nout r2\ndone\nend\n[sensors]\nS0 7\nS1 9\n[power]\n";

// The values of the events of the first queue.
fn is_either_order(record: &LiveRecord) -> bool {
    match record.accepted.as_slice() {
        [first, ..] => match first.as_slice() {
            [one, other] => is_one_and_other(*one, *other) || is_one_and_other(*other, *one),
            _ => false,
        },
        [] => false,
    }
}

fn is_one_and_other(one: Accept, other: Accept) -> bool {
    one.source.0 == 0 && one.value == 7 && other.source.0 == 1 && other.value == 9
}

// How many commits the kernel tells of a charge.
fn commits_in(record: &LiveRecord, charge: usize) -> usize
    requires { charge < length record.now.kernel }
{
    record.kernel.as_slice()[charge]
        .as_slice()
        .iter()
        .filter(|entry| matches!(entry, KernelEntry::Commit { thread: _ }))
        .count()
}

#[test]
fn readings_come_in_either_order(rt: HostRuntime) -> Result<(), Fail> {
    let alloc = rt.alloc();
    let text = joined(
        alloc,
        &[
            PROGRAM,
            b"charge 0 S0*40 S1*40\ncharge 0 K*400\n".as_slice(),
        ],
    )?;
    let record = lived(alloc, &rt, text.as_slice(), &NoGate)?;
    assert!(rt; is_either_order(&record));
    assert!(rt; record.refused.as_slice().is_empty());
    assert_eq!(rt; record.kernel.as_slice().len(), 2);
    if record.kernel.as_slice().len() == 2 {
        assert_eq!(rt; commits_in(&record, 0), 0);
        assert_eq!(rt; commits_in(&record, 1), 2);
    }
    Ok(())
}
