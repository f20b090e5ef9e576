//! The texts of runs that were made by hand, in words and as JSON.

use crate::reported::{Run, flags, is_told, with_bounds};
use std::test::Fail;

const SERVED: &str =
    "1 a 7\nthread a served 1 trapped 0 expired 0 held 0\nsource S0 next 1 pushed 1 refused 0\nclock 0 commits 1 charges 1\n";

#[test]
fn a_served_reading_is_told(rt: HostRuntime) -> Result<(), Fail> {
    assert!(rt; is_told(rt.alloc(), Run::Served, flags(false, false, None), SERVED)?);
    Ok(())
}

#[test]
fn a_refused_reading_is_told(rt: HostRuntime) -> Result<(), Fail> {
    let text =
        "thread a served 0 trapped 0 expired 0 held 0\nsource S0 next 1 pushed 0 refused 1\nclock 0 commits 0 charges 12\n";
    assert!(rt; is_told(rt.alloc(), Run::Refused, flags(false, false, None), text)?);
    Ok(())
}

#[test]
fn the_journal_follows_the_summary(rt: HostRuntime) -> Result<(), Fail> {
    let text =
        "1 a 7\nthread a served 1 trapped 0 expired 0 held 0\nsource S0 next 1 pushed 1 refused 0\nclock 0 commits 1 charges 1\n[journal]\nPush S0\nScan\nCommit a\nRelease a\n";
    assert!(rt; is_told(rt.alloc(), Run::Served, flags(true, false, None), text)?);
    Ok(())
}

#[test]
fn the_journal_of_a_refused_reading(rt: HostRuntime) -> Result<(), Fail> {
    let text =
        "thread a served 0 trapped 0 expired 0 held 0\nsource S0 next 1 pushed 0 refused 1\nclock 0 commits 0 charges 12\n[journal]\nRefuse S0\nSkip S0\nTick 12\nLook a\n";
    assert!(rt; is_told(rt.alloc(), Run::Refused, flags(true, false, None), text)?);
    Ok(())
}

#[test]
fn a_generated_job_shows_no_outputs(rt: HostRuntime) -> Result<(), Fail> {
    let text =
        "thread a served 1 trapped 0 expired 0 held 0\nsource S0 next 1 pushed 1 refused 0\nclock 0 commits 1 charges 1\n";
    assert!(rt; is_told(rt.alloc(), Run::Served, flags(false, false, Some(5)), text)?);
    Ok(())
}

#[test]
fn the_summary_is_json(rt: HostRuntime) -> Result<(), Fail> {
    let text =
        "1 a 7\n{\"charges\":1,\"clock\":0,\"commits\":1,\"sources\":[{\"next\":1,\"pushed\":1,\"refused\":0}],\"threads\":[{\"expired\":0,\"held\":0,\"name\":\"a\",\"served\":1,\"trapped\":0}]}\n";
    assert!(rt; is_told(rt.alloc(), Run::Served, flags(false, true, None), text)?);
    Ok(())
}

#[test]
fn a_comma_stands_between_two_sources(rt: HostRuntime) -> Result<(), Fail> {
    let text =
        "{\"charges\":2,\"clock\":5,\"commits\":1,\"sources\":[{\"next\":0,\"pushed\":0,\"refused\":0},{\"next\":1,\"pushed\":1,\"refused\":0}],\"threads\":[{\"expired\":0,\"held\":0,\"name\":\"a\",\"served\":1,\"trapped\":0}]}\n";
    assert!(rt; is_told(rt.alloc(), Run::TwoSources, flags(false, true, None), text)?);
    Ok(())
}

#[test]
fn the_journal_follows_json(rt: HostRuntime) -> Result<(), Fail> {
    let text =
        "1 a 7\n{\"charges\":1,\"clock\":0,\"commits\":1,\"sources\":[{\"next\":1,\"pushed\":1,\"refused\":0}],\"threads\":[{\"expired\":0,\"held\":0,\"name\":\"a\",\"served\":1,\"trapped\":0}]}\n[journal]\nPush S0\nScan\nCommit a\nRelease a\n";
    assert!(rt; is_told(rt.alloc(), Run::Served, flags(true, true, None), text)?);
    Ok(())
}

#[test]
fn a_generated_job_with_json_and_journal(rt: HostRuntime) -> Result<(), Fail> {
    let text =
        "{\"charges\":1,\"clock\":0,\"commits\":1,\"sources\":[{\"next\":1,\"pushed\":1,\"refused\":0}],\"threads\":[{\"expired\":0,\"held\":0,\"name\":\"a\",\"served\":1,\"trapped\":0}]}\n[journal]\nPush S0\nScan\nCommit a\nRelease a\n";
    assert!(rt; is_told(rt.alloc(), Run::Served, flags(true, true, Some(5)), text)?);
    Ok(())
}

// A boot of one thread takes 6 accesses at most; a round 7 for the scan, 32 for each of 7 pages, 6 for each of 100 instructions, and 18.
#[test]
fn the_bounds_follow_the_summary(rt: HostRuntime) -> Result<(), Fail> {
    let text =
        "1 a 7\nthread a served 1 trapped 0 expired 0 held 0\nsource S0 next 1 pushed 1 refused 0\nclock 0 commits 1 charges 1\nbounds boot 6 round 849\n[journal]\nPush S0\nScan\nCommit a\nRelease a\n";
    assert!(rt; is_told(rt.alloc(), Run::Served, with_bounds(true, false), text)?);
    Ok(())
}

#[test]
fn the_bounds_are_json(rt: HostRuntime) -> Result<(), Fail> {
    let text =
        "1 a 7\n{\"boot\":6,\"charges\":1,\"clock\":0,\"commits\":1,\"round\":849,\"sources\":[{\"next\":1,\"pushed\":1,\"refused\":0}],\"threads\":[{\"expired\":0,\"held\":0,\"name\":\"a\",\"served\":1,\"trapped\":0}]}\n";
    assert!(rt; is_told(rt.alloc(), Run::Served, with_bounds(false, true), text)?);
    Ok(())
}
