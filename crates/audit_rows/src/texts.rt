//! Texts with and without a journal, and texts that differ from that of their journal.

use crate::fixtures::{HEAD, JOB, told, verdict};
use ink_base::NoMemory;
use std::alloc::Global;
use std::test::Fail;

const ENTRIES: &[u8] = b"Tick 0\nPush S0\nScan\nCommit a\nRelease a\n";

// What is told of these lines in front of the journal of the run.
fn under(alloc: Global, head: &[u8]) -> Result<Option<u32>, NoMemory> {
    told(alloc, &[head, ENTRIES])
}

#[test]
fn what_the_run_prints_is_right(rt: HostRuntime) -> Result<(), Fail> {
    assert_eq!(rt; told(rt.alloc(), &[HEAD, ENTRIES])?, Some(0));
    Ok(())
}

#[test]
fn a_text_without_a_journal_is_told_behind_its_last_line(rt: HostRuntime) {
    let alloc = rt.alloc();
    assert_eq!(rt; verdict(alloc, JOB, b""), Some(1));
    assert_eq!(rt; verdict(alloc, JOB, b"1 a 7"), Some(2));
    assert_eq!(rt; verdict(alloc, JOB, b"1 a 7\n"), Some(2));
    assert_eq!(rt; verdict(alloc, JOB, b"1 a 7\n\n"), Some(3));
    assert_eq!(rt;
        verdict(alloc, JOB, b"[journal] \n[journal]\r\n[Journal]\n"),
        Some(4)
    );
}

#[test]
fn a_text_that_ends_with_its_header_has_an_empty_journal(rt: HostRuntime) {
    assert_eq!(rt; verdict(rt.alloc(), JOB, b"[journal]"), Some(1));
    let nothing =
        b"thread a served 0 trapped 0 expired 0 held 0\nsource S0 next 0 pushed 0 refused 0\nclock 0 commits 0 charges 1\n[journal]\n";
    assert_eq!(rt; verdict(rt.alloc(), JOB, nothing), Some(0));
    let unended =
        b"thread a served 0 trapped 0 expired 0 held 0\nsource S0 next 0 pushed 0 refused 0\nclock 0 commits 0 charges 1\n[journal]";
    assert_eq!(rt; verdict(rt.alloc(), JOB, unended), Some(4));
}

#[test]
fn an_output_or_a_line_of_the_summary_is_another(rt: HostRuntime) -> Result<(), Fail> {
    let alloc = rt.alloc();
    let other_output =
        b"1 a 8\nthread a served 1 trapped 0 expired 0 held 0\nsource S0 next 1 pushed 1 refused 0\nclock 0 commits 1 charges 1\n[journal]\n";
    assert_eq!(rt; under(alloc, other_output)?, Some(1));
    let other_thread =
        b"1 a 7\nthread a served 1 trapped 0 expired 0 held 1\nsource S0 next 1 pushed 1 refused 0\nclock 0 commits 1 charges 1\n[journal]\n";
    assert_eq!(rt; under(alloc, other_thread)?, Some(2));
    let other_source =
        b"1 a 7\nthread a served 1 trapped 0 expired 0 held 0\nsource S0 next 1 pushed 2 refused 0\nclock 0 commits 1 charges 1\n[journal]\n";
    assert_eq!(rt; under(alloc, other_source)?, Some(3));
    let other_charges =
        b"1 a 7\nthread a served 1 trapped 0 expired 0 held 0\nsource S0 next 1 pushed 1 refused 0\nclock 0 commits 1 charges 2\n[journal]\n";
    assert_eq!(rt; under(alloc, other_charges)?, Some(4));
    let one_line_more =
        b"1 a 7\nthread a served 1 trapped 0 expired 0 held 0\nsource S0 next 1 pushed 1 refused 0\nclock 0 commits 1 charges 1\n\n[journal]\n";
    assert_eq!(rt; under(alloc, one_line_more)?, Some(5));
    Ok(())
}

#[test]
fn the_last_line_feed_counts(rt: HostRuntime) -> Result<(), Fail> {
    let alloc = rt.alloc();
    let unended = b"Tick 0\nPush S0\nScan\nCommit a\nRelease a";
    assert_eq!(rt; told(alloc, &[HEAD, unended])?, Some(10));
    let twice = b"Tick 0\nPush S0\nScan\nCommit a\nRelease a\n\n";
    assert_eq!(rt; told(alloc, &[HEAD, twice])?, Some(11));
    Ok(())
}

#[test]
fn a_journal_that_stops_earlier_has_another_summary(rt: HostRuntime) -> Result<(), Fail> {
    assert_eq!(rt;
        told(rt.alloc(), &[HEAD, b"Tick 0\nPush S0\nScan\n"])?,
        Some(1)
    );
    Ok(())
}
