//! What is looked for in a text: the number of its lines, and its script.

ghost use Rattle.std.specs.Prelude.{◌≡◌, ◌≤◌, length, IfOk};
ghost use Rattle.ink_base.specs.Gives.{GivesJob};
ghost use Rattle.ink_base.specs.Checks.{words_of};
ghost use Rattle.ink_base.specs.Lines.{lines};
ghost use Rattle.ink_base.specs.Suffix.{IsSuffix};
ghost use Rattle.ink_base.specs.TokenLines.{token_lines};
ghost use Rattle.ink_modes.specs.modes.Radio.{from_radio, is_radio};
ghost use Rattle.ink_modes.specs.kept.Script.{judged_script};

use ink_base::checks::word;
use ink_base::limits::TEXT_BYTES;
use ink_base::lines::split_line;
use ink_base::{JobAnswer, Token, job_tokens};
use ink_radio::limits::SCRIPT_LINES;
use ink_radio::{RadioEvent, read_script};
use ink_text::index_of;
use sqlite_items::Items;
use std::alloc::Global;

/// The number of lines of a text. Behind the last line feed stands a line where it isn't empty.
pub fn line_count(text: &[u8]) -> u32
    requires { length text.now ≤ TEXT_BYTES }
    ensures { result ≡ length (lines text.now) }
{
    let mut count = 0;
    let mut fresh = true;
    for b in text {
        if fresh {
            count += 1;
        }
        fresh = *b == b'\n';
    }
    count
}

/// The script of a text whose bytes are allowed: the events of the section from the first line on that begins with `[radio]`. Refused as
/// `read_script` refuses.
pub fn script_in(alloc: Global, text: &[u8]) -> Result<Items<RadioEvent>, JobAnswer>
    requires { length text.now ≤ TEXT_BYTES }
    ensures given { GivesJob (λ events. events) result (judged_script text.now) }
    ensures within { IfOk result (λ events. length events ≤ SCRIPT_LINES) }
{
    let tokens = job_tokens(alloc, text)?;
    let at = index_of(&tokens, from_radio(text, tokens.list.as_slice()));
    read_script(alloc, text, &tokens, at)
}

// The tokens from the first line on that begins with `[radio]`.
fn from_radio<'a>(text: &[u8], tokens: &'a [Token]) -> &'a [Token]
    ensures lines { token_lines text.now result.now ≡ from_radio (token_lines text.now tokens.now) }
    ensures suffix { IsSuffix result.now tokens.now }
{
    let mut rest = tokens;
    'lines: while !rest.is_empty() {
        let (_line, words, behind) = split_line(rest);
        if is_radio(text, words) {
            return rest;
        }
        rest = behind;
    }
    rest
}

// Whether a line of these words begins with the header of a script.
fn is_radio(text: &[u8], words: &[Token]) -> bool
    ensures { result ≡ is_radio (words_of text.now words.now) }
{
    match words {
        [] => false,
        [first, ..] => word(text, first) == b"[radio]".as_slice(),
    }
}
