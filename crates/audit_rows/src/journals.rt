//! Lines that are and aren't those of entries, and entries that aren't legal.

use crate::fixtures::{HEAD, told, verdict};
use ink_base::NoMemory;
use std::alloc::Global;
use std::test::Fail;

// What is told of a text with this line first in its journal, which stands in line 6.
fn first(alloc: Global, line: &[u8]) -> Result<Option<u32>, NoMemory> {
    told(alloc, &[HEAD, line, b"\n"])
}

// A job of two threads, a pipe, a timer and two sources.
const PAIR: &[u8] =
    b"[program]\nthread near priority 1 queue 2 state 1 log 8\nthread near_by priority 2 queue 2 state 1 log 8\nsource near\nsource near_by\nsource near\ntask one thread near limit 9\ndone\nend\ntask two thread near_by limit 9\ndone\nend\n[sensors]\nS1 4\n[power]\ncharge 0 T\ncharge 5\n";

#[test]
fn an_entry_is_spelled_in_one_way(rt: HostRuntime) -> Result<(), Fail> {
    let alloc = rt.alloc();
    let lines: [&[u8]; 14] = [
        b"",
        b"Tick",
        b"Tick ",
        b"Tick  0",
        b"Tick 0 ",
        b"Tick 00",
        b"Tick 07",
        b"Tick +1",
        b"Tick 0\r",
        b"tick 0",
        b"Scan ",
        b" Scan",
        b"Push 0",
        b"Push S00",
    ];
    for line in lines {
        // A text of the same lines that has a further line which is no entry's is refused at the first one too.
        assert_eq!(rt; first(alloc, line)?, Some(6));
        assert_eq!(rt; told(alloc, &[HEAD, b"Tick 0\n", line, b"\n"])?, Some(7));
    }
    Ok(())
}

#[test]
fn an_entry_names_parts_of_the_program(rt: HostRuntime) -> Result<(), Fail> {
    let alloc = rt.alloc();
    // The push in line 7 isn't legal a second time, but line 8 is no entry's.
    let unknown: [&[u8]; 5] = [
        b"Push S1\n",
        b"Look b\n",
        b"Commit aa\n",
        b"Release A\n",
        b"Skip S10\n",
    ];
    for line in unknown {
        assert_eq!(rt;
            told(alloc, &[HEAD, b"Push S0\n", b"Push S0\n", line])?,
            Some(8)
        );
    }
    assert_eq!(rt;
        told(alloc, &[HEAD, b"Push S0\n", b"Push S0\n", b"Scan\n"])?,
        Some(7)
    );
    Ok(())
}

#[test]
fn ticks_have_64_bits_and_the_clock_47(rt: HostRuntime) -> Result<(), Fail> {
    let alloc = rt.alloc();
    // The clock of the summary is another.
    assert_eq!(rt; told(alloc, &[HEAD, b"Tick 140737488355327\n"])?, Some(1));
    // It isn't legal, and line 7 is no entry's.
    assert_eq!(rt; told(alloc, &[HEAD, b"Tick 140737488355328\n"])?, Some(6));
    assert_eq!(rt;
        told(alloc, &[HEAD, b"Tick 18446744073709551615\n", b"x"])?,
        Some(7)
    );
    assert_eq!(rt;
        told(alloc, &[HEAD, b"Tick 18446744073709551616\n", b"x"])?,
        Some(6)
    );
    assert_eq!(rt;
        told(alloc, &[HEAD, b"Tick 99999999999999999999999\n", b"x"])?,
        Some(6)
    );
    Ok(())
}

#[test]
fn lines_are_judged_before_entries(rt: HostRuntime) -> Result<(), Fail> {
    let alloc = rt.alloc();
    assert_eq!(rt;
        told(alloc, &[HEAD, b"Release a\n", b"Commit a\n"])?,
        Some(6)
    );
    assert_eq!(rt;
        told(alloc, &[HEAD, b"Release a\n", b"Commit b\n"])?,
        Some(7)
    );
    assert_eq!(rt; told(alloc, &[b"x\n[journal]\nRelease a\n"])?, Some(3));
    Ok(())
}

// What is told of this text as what the run of the pair prints.
fn of_pair(alloc: Global, claim: &[u8]) -> Option<u32> {
    verdict(alloc, PAIR, claim)
}

#[test]
fn each_thread_and_source_is_named(rt: HostRuntime) {
    let right =
        b"thread near served 0 trapped 0 expired 0 held 0\nthread near_by served 1 trapped 0 expired 0 held 0\nsource S0 next 0 pushed 0 refused 0\nsource S1 next 1 pushed 1 refused 0\nsource S2 next 0 pushed 0 refused 0\nclock 6 commits 1 charges 2\n[journal]\nTick 0\nScan\nLook near_by\nLook near\nTick 6\nPush S1\nScan\nCommit near_by\nRelease near_by\n";
    assert_eq!(rt; of_pair(rt.alloc(), right), Some(0));
    let another =
        b"thread near served 0 trapped 0 expired 0 held 0\nthread near_by served 1 trapped 0 expired 0 held 0\nsource S0 next 0 pushed 0 refused 0\nsource S1 next 1 pushed 1 refused 0\nsource S2 next 0 pushed 0 refused 0\nclock 6 commits 1 charges 2\n[journal]\nTick 0\nScan\nLook near_by\nLook near\nTick 6\nPush S1\nScan\nCommit near\nRelease near_by\n";
    assert_eq!(rt; of_pair(rt.alloc(), another), Some(15));
    assert_eq!(rt;
        of_pair(
            rt.alloc(),
            b"[journal]\nScan\nLook near\nLook near_by\nLook near\n"
        ),
        Some(5)
    );
    assert_eq!(rt;
        of_pair(rt.alloc(), b"[journal]\nScan\nLook near_b\n"),
        Some(3)
    );
    assert_eq!(rt; of_pair(rt.alloc(), b"[journal]\nPush S2\n"), Some(2));
    assert_eq!(rt;
        of_pair(rt.alloc(), b"[journal]\nPush S1\nPush S3\n"),
        Some(3)
    );
}
