//! Where a text ends that a claim follows.

ghost use Rattle.std.specs.Prelude.{◌≡◌, ◌≤◌, length};
ghost use Rattle.ink_base.specs.Lines.{lines_of};
ghost use Rattle.ink_image.specs.Before.{claim_line, judged_text};

use crate::bytes::{first_line, is_claim, line_end};
use ink_base::limits::TEXT_BYTES;
use power_trace::Tails;

/// The bytes that are judged: all, unless a claim may follow. Then the text ends with the first line that begins with the header of a claim.
pub fn judged_text(text: &[u8], tails: Tails) -> &[u8]
    requires { length text.now ≤ TEXT_BYTES }
    ensures bytes { result.now ≡ judged_text tails text.now }
    ensures within { length result.now ≤ length text.now }
{
    if !tails.claim {
        return text;
    }
    match claim_line(text) {
        None => text,
        Some(number) => {
            let (judged, _claim) = text.split_at(line_end(text, number) as usize);
            judged
        }
    }
}

// The number of the first line that begins with the header of a claim.
fn claim_line(text: &[u8]) -> Option<u32>
    requires { length text.now ≤ TEXT_BYTES }
    ensures { result ≡ claim_line (lines_of text.now) }
{
    let mut rest = text;
    let mut number = 1;
    'lines: while !rest.is_empty() {
        let (line, after) = first_line(rest);
        if is_claim(line) {
            return Some(number);
        }
        number += 1;
        rest = after;
    }
    None
}
