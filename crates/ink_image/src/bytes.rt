//! Lines of bytes that needn't be text.

ghost use Rattle.std.specs.Prelude.{◌≡◌, ◌≤◌, ◌<◌, ◌∷◌, ◌||◌, ◌==◌, not, length};
ghost use Rattle.std.specs.List.{prefix_len};
ghost use Rattle.ink_base.specs.Lines.{is_blank, lines, words, before_comment};
ghost use Rattle.ink_image.specs.Before.{line_end, is_claim};

use ink_base::limits::TEXT_BYTES;

/// Where the line of this number ends, as an offset: behind its line feed, or with the text.
pub fn line_end(text: &[u8], number: u32) -> u32
    requires { length text.now ≤ TEXT_BYTES }
    ensures place { result ≡ line_end text.now number }
    ensures within { result ≤ length text.now }
{
    let mut left = number;
    for (at, b) in text.iter().enumerate() {
        if left == 0 {
            return at as u32;
        }
        if *b == b'\n' {
            left -= 1;
        }
    }
    text.len() as u32
}

/// The first line without its line feed, and what follows it.
pub fn first_line(text: &[u8]) -> (&[u8], &[u8])
    requires { 0 < length text.now }
    ensures lines { lines text.now ≡ result.0.now ∷ lines result.1.now }
    ensures shorter { length result.1.now < length text.now }
{
    let (line, behind) = text.split_at(line_len(text));
    match behind {
        [] => (line, behind),
        [_, rest @ ..] => (line, rest),
    }
}

// How many bytes stand before the first line feed.
fn line_len(text: &[u8]) -> usize
    ensures count { result ≡ prefix_len (λ b. not (b == 10)) text.now }
    ensures within { result ≤ length text.now }
{
    text.iter().take_while(|b| **b != b'\n').count()
}

/// Whether a line begins with the header of a claim.
pub fn is_claim(line: &[u8]) -> bool
    ensures { result ≡ is_claim (words (before_comment line.now)) }
{
    let (_blanks, from) = line.split_at(blank_len(line));
    let (word, _rest) = from.split_at(word_len(from));
    word == b"[claim]".as_slice()
}

// How many blanks stand before the first word.
fn blank_len(line: &[u8]) -> usize
    ensures count { result ≡ prefix_len is_blank line.now }
    ensures within { result ≤ length line.now }
{
    line.iter().take_while(|b| is_blank(**b)).count()
}

// How many bytes stand before the next blank or comment.
fn word_len(line: &[u8]) -> usize
    ensures count { result ≡ prefix_len (λ b. not (b == 35 || is_blank b)) line.now }
    ensures within { result ≤ length line.now }
{
    line.iter().take_while(|b| !ends_word(**b)).count()
}

fn is_blank(byte: u8) -> bool
    ensures { result ≡ is_blank byte }
{
    byte == b' ' || byte == b'\t' || byte == b'\r'
}

// A word ends at a blank, or where a comment begins.
fn ends_word(byte: u8) -> bool
    ensures { result ≡ (byte == 35 || is_blank byte) }
{
    byte == b'#' || is_blank(byte)
}
