//! The text of an image.

ghost use Rattle.std.specs.Prelude.{◌≡◌, ◌++◌, ◌<◌, OnOk, IfOk};
ghost use Rattle.std.specs.List.{flat_map};
ghost use Rattle.ink_image.specs.Text.{digit_byte, digits, next_text, joined, line_text, rows, word_text, image_text};
ghost use Rattle.ink_image.specs.Reading.{Says};

use ink_base::NoMemory;
use std::alloc::Global;

// The number of words in a line.
const ROW: usize = 8;

/// The text of an image: the line `[image2]`, and behind it the words in order, each as 16 lower-case hexadecimal digits, eight in a
/// line with one space between, the last line what is left. Read again, it says these words.
pub fn write_image(alloc: Global, words: &[u64]) -> Result<Vec<u8>, NoMemory>
    ensures text { IfOk result (λ text. text.items ≡ image_text words.now) }
    ensures again { IfOk result (λ text. Says text.items words.now) }
{
    let mut text = Vec::new(alloc);
    text.extend_from_slice(b"[image2]\n")?;
    put_rows(&mut text, words)?;
    Ok(text)
}

fn put_rows(text: &mut Vec<u8>, words: &[u64]) -> Result<(), NoMemory>
    ensures { OnOk result (text.new.items ≡ text.old.items ++ flat_map line_text (rows words.now)) }
{
    let mut rest = words;
    'rows: while !rest.is_empty() {
        let (row, after) = rest.split_at(rest.len().min(ROW));
        put_row(text, row)?;
        rest = after;
    }
    Ok(())
}

fn put_row(text: &mut Vec<u8>, words: &[u64]) -> Result<(), NoMemory>
    ensures { OnOk result (text.new.items ≡ text.old.items ++ line_text words.now) }
{
    put_words(text, words)?;
    text.push(b'\n')?;
    Ok(())
}

fn put_words(text: &mut Vec<u8>, words: &[u64]) -> Result<(), NoMemory>
    ensures { OnOk result (text.new.items ≡ text.old.items ++ joined words.now) }
{
    match words {
        [] => Ok(()),
        [first, rest @ ..] => {
            put_word(text, *first)?;
            put_others(text, rest)
        }
    }
}

// The words behind the first one of a line.
fn put_others(text: &mut Vec<u8>, words: &[u64]) -> Result<(), NoMemory>
    ensures { OnOk result (text.new.items ≡ text.old.items ++ flat_map next_text words.now) }
{
    for word in words {
        text.push(b' ')?;
        put_word(text, *word)?;
    }
    Ok(())
}

fn put_word(text: &mut Vec<u8>, word: u64) -> Result<(), NoMemory>
    ensures { OnOk result (text.new.items ≡ text.old.items ++ word_text word) }
{
    put_digits(text, 16, word)
}

// The last so many digits of the number.
fn put_digits(text: &mut Vec<u8>, count: u32, number: u64) -> Result<(), NoMemory>
    ensures { OnOk result (text.new.items ≡ text.old.items ++ digits count number) }
{
    if count == 0 {
        return Ok(());
    }
    put_digits(text, count - 1, number / 16)?;
    text.push(digit_byte((number % 16) as u8))?;
    Ok(())
}

fn digit_byte(digit: u8) -> u8
    requires { digit < 16 }
    ensures { result ≡ digit_byte digit }
{
    if digit < 10 {
        b'0' + digit
    } else {
        b'a' + (digit - 10)
    }
}
