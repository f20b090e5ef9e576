//! Texts that go on behind their charges, and the lines of the charges (power_trace).

use crate::fixtures::{at, job_text};
use ink_base::limits::TEXT_BYTES;
use ink_base::{Cause, JobAnswer, JobFault};
use power_trace::{Tails, parse_parts, parse_with_lines};
use std::alloc::Global;
use std::test::Fail;

// The image of version 2 may follow, and nothing else.
fn image() -> Tails {
    let mut tails = Tails::none();
    tails.image2 = true;
    tails
}

// The lines of the first and the last charge of a job whose charges begin in line 16, and which token ends them.
fn ends(alloc: Global, tails: Tails, charges: &[u8]) -> Result<(u32, u32, u32), JobAnswer> {
    let text = job_text(alloc, b"S0 7", charges)?;
    if text.len() > TEXT_BYTES {
        return Err(JobAnswer::NoMemory);
    }
    let (parts, _tokens, end) = parse_with_lines(alloc, text.as_slice(), tails)?;
    match parts.charge_lines.as_slice() {
        [first, .., last] => Ok((*first, *last, end)),
        _ => Ok((0, 0, end)),
    }
}

// Which token ends the charges.
fn end(alloc: Global, tails: Tails, charges: &[u8]) -> Result<u32, JobAnswer> {
    let text = job_text(alloc, b"S0 7", charges)?;
    if text.len() > TEXT_BYTES {
        return Err(JobAnswer::NoMemory);
    }
    let (_job, _tokens, end) = parse_parts(alloc, text.as_slice(), tails)?;
    Ok(end)
}

fn fault(alloc: Global, tails: Tails, charges: &[u8]) -> Option<JobFault> {
    match end(alloc, tails, charges) {
        Err(JobAnswer::Fault(fault)) => Some(fault),
        _ => None,
    }
}

// 42 tokens stand before the charges.
#[test]
fn charges_end_at_the_header_behind_them(rt: HostRuntime) -> Result<(), Fail> {
    let ended = ends(
        rt.alloc(),
        image(),
        b"charge 0 K\n\ncharge 0 T\n[image2]\n00 x\n",
    )?;
    assert_eq!(rt; ended, (16, 18, 48));
    assert_eq!(rt; end(rt.alloc(), image(), b"charge 0 K\n[image2]\n")?, 45);
    let nothing = ends(
        rt.alloc(),
        image(),
        b"charge 0 K\n# one\ncharge 0 T\ncharge 1\n",
    )?;
    assert_eq!(rt; nothing, (16, 19, 50));
    Ok(())
}

#[test]
fn a_header_that_may_not_follow_is_refused(rt: HostRuntime) {
    let other = fault(rt.alloc(), image(), b"charge 0 K\n[image1] x\n");
    assert_eq!(rt; other, at(17, Cause::BadSection));
    let none = fault(rt.alloc(), Tails::none(), b"charge 0 K\n[image2]\n");
    assert_eq!(rt; none, at(17, Cause::BadSection));
}

#[test]
fn a_header_before_any_charge_is_refused(rt: HostRuntime) {
    assert_eq!(rt;
        fault(rt.alloc(), image(), b"\n[image2] x\n"),
        at(17, Cause::Missing)
    );
    assert_eq!(rt;
        fault(rt.alloc(), image(), b"[radio]\n"),
        at(16, Cause::BadSection)
    );
}

#[test]
fn a_header_stands_alone_in_its_line(rt: HostRuntime) {
    let more = fault(rt.alloc(), image(), b"charge 0 K\n[image2] x\n");
    assert_eq!(rt; more, at(17, Cause::UnknownWord));
}
