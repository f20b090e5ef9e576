//! The words of a text, and its first byte that isn't allowed (ink_base).

use ink_base::{Cause, JobAnswer, JobFault, TextAnswer, Token, job_tokens, split_tokens};
use std::alloc::Global;

const TEXT: &[u8] = b"ab  c # d\n\n\te";

// The line of each word, its first byte and the byte behind it.
const PLACES: &[(u32, u32, u32)] = &[(1, 0, 2), (1, 4, 5), (3, 12, 13)];

fn place(token: &Token) -> (u32, u32, u32) {
    (token.line, token.start, token.stop)
}

fn are_at(tokens: &[Token], places: &[(u32, u32, u32)]) -> bool {
    tokens.len() == places.len()
        && tokens
            .iter()
            .zip(places.iter())
            .all(|(token, at)| place(token) == *at)
}

// The number of lines, and whether the words stand at their places; none where a byte isn't allowed.
fn words(alloc: Global) -> Option<(u32, bool)> {
    match split_tokens(alloc, TEXT) {
        Ok(tokens) => Some((tokens.lines, are_at(tokens.list.as_slice(), PLACES))),
        Err(_) => None,
    }
}

#[test]
fn words_of_two_lines(rt: HostRuntime) {
    assert_eq!(rt; words(rt.alloc()), Some((3, true)));
}

const NOT_ASCII: &[u8] = b"a\nb \x80\n\x80";

fn first_bad(alloc: Global) -> Option<u32> {
    match split_tokens(alloc, NOT_ASCII) {
        Err(TextAnswer::NotAscii { offset }) => Some(offset),
        _ => None,
    }
}

fn bad_fault(alloc: Global) -> Option<JobFault> {
    match job_tokens(alloc, NOT_ASCII) {
        Err(JobAnswer::Fault(fault)) => Some(fault),
        _ => None,
    }
}

#[test]
fn a_byte_that_is_not_allowed_is_a_fault_of_its_line(rt: HostRuntime) {
    assert_eq!(rt; first_bad(rt.alloc()), Some(4));
    let fault = JobFault {
        line: 2,
        cause: Cause::BadByte,
    };
    assert_eq!(rt; bad_fault(rt.alloc()), Some(fault));
}
