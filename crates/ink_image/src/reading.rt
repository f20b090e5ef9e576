//! The words of an image's section.

ghost use Rattle.std.specs.Prelude.{◌≡◌, ◌≤◌, ◌<◌, length};
ghost use Rattle.std.specs.List.{list_all};
ghost use Rattle.ink_base.specs.Checks.{words_of};
ghost use Rattle.ink_base.specs.TokenLines.{token_lines};
ghost use Rattle.ink_image.specs.declared.reading.WordsAnswer.TheVariants.{NoMemory as out_of_memory};
ghost use Rattle.ink_image.specs.Reading.{is_digit, digit_value, is_word, value, said, line_entries, section_entries, read, Reads, ReadsOn};

use ink_base::Token;
use ink_base::checks::word;
use ink_base::lines::split_line;
use ink_text::is_header;
use std::alloc::{AllocError, AllocFailed, Global};

/// Why a section gives no words.
#[derive(Clone, Copy, Debug, PartialEq, Eq)]
pub enum WordsAnswer {
    /// The line of the first word that isn't 16 hexadecimal digits.
    BadWord { line: u32 },
    /// There was no memory.
    NoMemory,
}

impl From<AllocError> for WordsAnswer {
    ghost from_gives = { λ _ e. e ≡ out_of_memory };

    fn from(_e: AllocError) -> WordsAnswer {
        WordsAnswer::NoMemory
    }
}

impl<T: Drop> From<AllocFailed<T>> for WordsAnswer {
    ghost from_gives = { λ _ e. e ≡ out_of_memory };

    fn from(_e: AllocFailed<T>) -> WordsAnswer {
        WordsAnswer::NoMemory
    }
}

/// The words of an image's section in order: the tokens are those behind its header, and it ends at the next header or with them.
/// A line may have any number of words, each of 16 hexadecimal digits in upper or lower case. `BadWord` exactly at the first that isn't.
pub fn read_words(alloc: Global, text: &[u8], tokens: &[Token]) -> Result<Vec<u64>, WordsAnswer>
    ensures { Reads (λ words. words.items) result (read (section_entries (token_lines text.now tokens.now))) }
{
    let mut words = Vec::new(alloc);
    let mut rest = tokens;
    'lines: while !rest.is_empty() {
        let (line, tokens, after) = split_line(rest);
        if is_header(text, tokens) {
            return Ok(words);
        }
        if let Err(e) = read_line(&mut words, text, line, tokens) {
            return Err(e);
        }
        rest = after;
    }
    Ok(words)
}

// Adds the words of a line.
fn read_line(
    words: &mut Vec<u64>,
    text: &[u8],
    line: u32,
    tokens: &[Token],
) -> Result<(), WordsAnswer>
    ensures { ReadsOn words.old.items words.new.items result (read (line_entries line (words_of text.now tokens.now))) }
{
    for token in tokens {
        match said(word(text, token)) {
            Some(number) => words.push(number)?,
            None => return Err(WordsAnswer::BadWord { line }),
        }
    }
    Ok(())
}

// What a word says; none where it isn't 16 hexadecimal digits.
fn said(word: &[u8]) -> Option<u64>
    ensures { result ≡ said word.now }
{
    if word.len() == 16 && all_digits(word) {
        Some(value(word))
    } else {
        None
    }
}

fn all_digits(word: &[u8]) -> bool
    ensures { result ≡ list_all is_digit word.now }
{
    word.iter().all(|b| is_digit(*b))
}

fn is_digit(byte: u8) -> bool
    ensures { result ≡ is_digit byte }
{
    (48 <= byte && byte <= 57) || (65 <= byte && byte <= 70) || (97 <= byte && byte <= 102)
}

// What a digit counts; 0 for another byte.
fn digit_value(byte: u8) -> u8
    ensures value { result ≡ digit_value byte }
    ensures below { result < 16 }
{
    match byte {
        48..=57 => byte - 48,
        65..=70 => byte - 55,
        97..=102 => byte - 87,
        _ => 0,
    }
}

fn value(word: &[u8]) -> u64
    requires { length word.now ≤ 16 }
    ensures { result ≡ value word.now }
{
    let mut n = 0;
    for b in word {
        n = 16 * n + u64::from(digit_value(*b));
    }
    n
}
