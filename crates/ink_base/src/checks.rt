//! The checks of a token. Each takes a text and the tokens from this token on, and gives what it read with the tokens behind it.

ghost use Rattle.std.specs.Prelude.{◌≡◌, ◌≤◌, length, IfOk};
ghost use Rattle.std.specs.List.{list_all};
ghost use Rattle.ink_base.specs.Tokens.{word_of};
ghost use Rattle.ink_base.specs.Numbers.{is_digit, is_number, value, number_said};
ghost use Rattle.ink_base.specs.Gives.{Gives};
ghost use Rattle.ink_base.specs.Checks.{words_of, word_in, fixed_in, number_of, number_in, field_in, end_in};

use crate::fault::Cause;
use crate::line_error::LineError;
use crate::token::Token;

/// The piece of the text that a token names; nothing where it isn't within the text.
pub fn word<'a>(text: &'a [u8], token: &Token) -> &'a [u8]
    ensures { result.now ≡ word_of text.now token.now }
{
    text.get(token.start as usize..token.stop as usize)
        .unwrap_or(&[])
}

/// The first word. Refused where there is none: `Missing`.
#[tactic(auto, unfolding(crate::specs::Checks::word_in))]
pub fn first<'a>(text: &'a [u8], words: &'a [Token]) -> Result<(&'a [u8], &'a [Token]), LineError>
    ensures { Gives (λ x. (x.0.now, words_of text.now x.1.now)) result (word_in (words_of text.now words.now)) }
{
    match words {
        [] => Err(LineError::Fault(Cause::Missing)),
        [first, rest @ ..] => Ok((word(text, first), rest)),
    }
}

/// Passes the word that is expected. Refused where there is none, `Missing`, or another: `UnknownWord`.
#[tactic(auto, unfolding(crate::specs::Checks::fixed_in))]
pub fn fixed<'a>(
    text: &'a [u8],
    words: &'a [Token],
    expected: &[u8],
) -> Result<&'a [Token], LineError>
    ensures { Gives (λ x. words_of text.now x.now) result (fixed_in expected.now (words_of text.now words.now)) }
{
    let (word, rest) = first(text, words)?;
    if word != expected {
        return Err(LineError::Fault(Cause::UnknownWord));
    }
    Ok(rest)
}

/// Whether a byte is a decimal digit.
pub fn is_digit(byte: u8) -> bool
    ensures { result ≡ is_digit byte }
{
    48 <= byte && byte <= 57
}

fn all_digits(word: &[u8]) -> bool
    ensures { result ≡ list_all is_digit word.now }
{
    word.iter().all(|b| is_digit(*b))
}

fn is_number(word: &[u8]) -> bool
    ensures { result ≡ is_number word.now }
{
    1 <= word.len() && word.len() <= 10 && all_digits(word)
}

// A byte that is no digit counts as something, so that the value needs no more than a short word.
fn value(word: &[u8]) -> u64
    requires { length word.now ≤ 10 }
    ensures { result ≡ value word.now }
{
    let mut n = 0;
    for b in word {
        n = 10 * n + u64::from(b.saturating_sub(48));
    }
    n
}

/// What a word says as a number; none where it isn't 1 to 10 digits.
pub fn number_said(word: &[u8]) -> Option<u64>
    ensures { result ≡ number_said word.now }
{
    if is_number(word) {
        Some(value(word))
    } else {
        None
    }
}

/// What a word says as a number. Refused where it isn't 1 to 10 digits: `BadNumber`.
pub fn number_of(word: &[u8]) -> Result<u64, LineError>
    ensures { Gives (λ x. x) result (number_of word.now) }
{
    match number_said(word) {
        Some(number) => Ok(number),
        None => Err(LineError::Fault(Cause::BadNumber)),
    }
}

/// A number from `least` to `greatest`. Refused where it isn't there, `Missing`, no number, `BadNumber`, or out of its range: `OverLimit`.
#[tactic(auto, unfolding(crate::specs::Checks::number_in))]
pub fn number<'a>(
    text: &'a [u8],
    words: &'a [Token],
    least: u64,
    greatest: u64,
) -> Result<(u64, &'a [Token]), LineError>
    ensures given { Gives (λ x. (x.0, words_of text.now x.1.now)) result (number_in least greatest (words_of text.now words.now)) }
    ensures within { IfOk result (λ x. x.0 ≤ greatest) }
{
    let (word, rest) = first(text, words)?;
    let n = number_of(word)?;
    if least <= n && n <= greatest {
        Ok((n, rest))
    } else {
        Err(LineError::Fault(Cause::OverLimit))
    }
}

/// The word `label`, and behind it a number from `least` to `greatest`. Refused as `fixed` and then `number` refuse.
#[tactic(auto, unfolding(crate::specs::Checks::field_in))]
pub fn field<'a>(
    text: &'a [u8],
    words: &'a [Token],
    label: &[u8],
    least: u64,
    greatest: u64,
) -> Result<(u64, &'a [Token]), LineError>
    ensures given { Gives (λ x. (x.0, words_of text.now x.1.now)) result (field_in label.now least greatest (words_of text.now words.now)) }
    ensures within { IfOk result (λ x. x.0 ≤ greatest) }
{
    let rest = fixed(text, words, label)?;
    number(text, rest, least, greatest)
}

/// The end of the line. Refused where a token is left over: `UnknownWord`.
#[tactic(auto, unfolding(crate::specs::Checks::end_in))]
pub fn end(text: &[u8], words: &[Token]) -> Result<(), LineError>
    ensures { Gives (λ x. x) result (end_in (words_of text.now words.now)) }
{
    if words.is_empty() {
        Ok(())
    } else {
        Err(LineError::Fault(Cause::UnknownWord))
    }
}
