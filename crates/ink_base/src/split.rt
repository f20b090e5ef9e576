//! Splits a text into tokens.

ghost use Rattle.std.specs.Prelude.{◌≡◌, ◌<◌, ◌≤◌, ℕ, length, map, slice_index_or, IfOk};
ghost use Rattle.ink_base.specs.Lines.{is_allowed, is_blank, lines};
ghost use Rattle.ink_base.specs.Tokens.{IsSplit, StandsBehind, all_entries, entry_of, first_bad};
ghost use Rattle.ink_base.specs.Walk.{closed, ends_word, place_after};

use crate::limits::TEXT_BYTES;
use crate::token::{TextAnswer, Token, Tokens};
use std::alloc::{AllocError, Global};

/// Where a place of the text stands.
#[derive(Clone, Copy)]
enum Place {
    Between,
    Word(u32),
    Comment,
}

fn is_blank(byte: u8) -> bool
    ensures { result ≡ is_blank byte }
{
    byte == b' ' || byte == b'\t' || byte == b'\r'
}

fn is_allowed(byte: u8) -> bool
    ensures { result ≡ is_allowed byte }
{
    (32 <= byte && byte <= 126) || byte == b'\t' || byte == b'\n' || byte == b'\r'
}

fn first_bad(text: &[u8]) -> Option<usize>
    ensures { result ≡ first_bad text.now }
{
    text.iter().position(|b| !is_allowed(*b))
}

fn count_lines(text: &[u8]) -> u32
    requires { length text.now ≤ TEXT_BYTES }
    ensures { result ≡ length (lines text.now) }
{
    let mut count = 0;
    let mut fresh = true;
    for b in text {
        if fresh {
            count += 1;
        }
        fresh = *b == b'\n';
    }
    count
}

fn ends_word(byte: u8) -> bool
    ensures { result ≡ ends_word byte }
{
    byte == b'\n' || byte == b'#' || is_blank(byte)
}

fn closed(place: Place, byte: u8) -> Option<u32>
    ensures { result ≡ closed place byte }
{
    match place {
        Place::Word(start) if ends_word(byte) => Some(start),
        _ => None,
    }
}

fn place_after(place: Place, byte: u8, at: u32) -> Place
    ensures { result ≡ place_after place byte at }
{
    if byte == b'\n' {
        return Place::Between;
    }
    match place {
        Place::Comment => Place::Comment,
        _ if byte == b'#' => Place::Comment,
        _ if is_blank(byte) => Place::Between,
        Place::Word(start) => Place::Word(start),
        Place::Between => Place::Word(at),
    }
}

fn words(alloc: Global, text: &[u8]) -> Result<Vec<Token>, AllocError>
    requires { length text.now ≤ TEXT_BYTES }
    ensures words { IfOk result (λ tokens. map (entry_of text.now) tokens.items ≡ all_entries text.now) }
    ensures places { IfOk result (λ tokens. (n : ℕ) (d : Token) → n < length tokens.items → StandsBehind text.now n (slice_index_or tokens.items n d)) }
{
    let mut tokens = Vec::new(alloc);
    let mut line = 1;
    let mut place = Place::Between;
    for (i, b) in text.iter().enumerate() {
        let at = i as u32;
        if let Some(start) = closed(place, *b) {
            tokens.push(Token {
                line,
                start,
                stop: at,
            })?;
        }
        place = place_after(place, *b, at);
        if *b == b'\n' {
            line += 1;
        }
    }
    // The end closes a word as a line feed does.
    if let Some(start) = closed(place, b'\n') {
        let stop = text.len() as u32;
        tokens.push(Token { line, start, stop })?;
    }
    Ok(tokens)
}

/// The words of a text of at most 4,194,304 bytes in order, each as the piece of the text where it stands, and the number of its lines.
/// `NotAscii` exactly at the first byte that isn't printable, a tab, a carriage return or a line feed.
pub fn split_tokens(alloc: Global, text: &[u8]) -> Result<Tokens, TextAnswer>
    requires { length text.now ≤ TEXT_BYTES }
    ensures { IsSplit text.now result }
{
    if let Some(offset) = first_bad(text) {
        return Err(TextAnswer::NotAscii {
            offset: offset as u32,
        });
    }
    let lines = count_lines(text);
    let list = words(alloc, text)?;
    Ok(Tokens { list, lines })
}
