//! The checks of names.

ghost use Rattle.std.specs.Prelude.{◌≡◌, ◌<◌, length, IfOk, IfSome, OnOk, IsTrue};
ghost use Rattle.std.specs.List.{list_all};
ghost use Rattle.std.specs.Str.{bytes_eq};
ghost use Rattle.ink_base.specs.Checks.{words_of};
ghost use Rattle.ink_base.specs.Gives.{Gives};
ghost use Rattle.task_isa.specs.Names.{is_letter, goes_on_name, is_name};
ghost use Rattle.task_lines.specs.Named.{place_of, is_taken, fresh_of, name_of, new_name_in, declared_in};

use crate::draft::DraftTask;
use ink_base::checks::{first, is_digit};
use ink_base::{Cause, LineError, Token};
use std::alloc::Global;
use task_isa::{Name, PipeDef, ThreadDef, TimerDef};

/// What has a name.
pub trait Named {
    ghost use Rattle.std.specs.Prelude.{List, ℕ};

    ghost name: { Self → List ℕ };

    /// Whether these are the bytes of its name.
    fn is_named(&self, word: &[u8]) -> bool
        ensures { result ≡ bytes_eq (name self.now) word.now };
}

impl Named for ThreadDef {
    ghost name = { λ t. t.name };

    fn is_named(&self, word: &[u8]) -> bool {
        self.name.is(word)
    }
}

impl Named for PipeDef {
    ghost name = { λ p. p.name };

    fn is_named(&self, word: &[u8]) -> bool {
        self.name.is(word)
    }
}

impl Named for TimerDef {
    ghost name = { λ t. t.name };

    fn is_named(&self, word: &[u8]) -> bool {
        self.name.is(word)
    }
}

impl Named for DraftTask {
    ghost name = { λ t. t.name };

    fn is_named(&self, word: &[u8]) -> bool {
        self.name.is(word)
    }
}

fn is_letter(byte: u8) -> bool
    ensures { result ≡ is_letter byte }
{
    (65 <= byte && byte <= 90) || (97 <= byte && byte <= 122)
}

fn goes_on_name(byte: u8) -> bool
    ensures { result ≡ goes_on_name byte }
{
    is_letter(byte) || is_digit(byte) || byte == b'_'
}

fn all_go_on(rest: &[u8]) -> bool
    ensures { result ≡ list_all goes_on_name rest.now }
{
    rest.iter().all(|b| goes_on_name(*b))
}

/// Whether a word is a name: a letter and at most 15 letters, digits or `_`.
pub fn is_name(word: &[u8]) -> bool
    ensures { result ≡ is_name word.now }
{
    match word {
        [] => false,
        [first, rest @ ..] => is_letter(*first) && rest.len() <= 15 && all_go_on(rest),
    }
}

/// Judges a new name, of which it is known whether it is taken. Refused where it is no name, `UnknownWord`, or taken: `Duplicate`.
#[tactic(auto, unfolding(crate::specs::Named::fresh_of))]
pub fn fresh(word: &[u8], taken: bool) -> Result<(), LineError>
    ensures given { Gives (λ _. word.now) result (fresh_of taken word.now) }
    ensures name { OnOk result (IsTrue (is_name word.now)) }
{
    if !is_name(word) {
        return Err(LineError::Fault(Cause::UnknownWord));
    }
    if taken {
        return Err(LineError::Fault(Cause::Duplicate));
    }
    Ok(())
}

/// What has to be a name. Refused where it is none: `UnknownWord`.
pub fn name_of(alloc: Global, word: &[u8]) -> Result<Name, LineError>
    ensures { Gives (λ x. x) result (name_of word.now) }
{
    if !is_name(word) {
        return Err(LineError::Fault(Cause::UnknownWord));
    }
    Ok(Name::new(alloc, word)?)
}

/// The place of the first item with this name.
pub fn place_of<T: Named>(items: &[T], word: &[u8]) -> Option<usize>
    ensures place { result ≡ place_of T.name items.now word.now }
    ensures within { IfSome result (λ place. place < length items.now) }
{
    items.iter().position(|x| x.is_named(word))
}

fn is_taken<T: Named>(items: &[T], word: &[u8]) -> bool
    ensures { result ≡ is_taken T.name items.now word.now }
{
    items.iter().any(|x| x.is_named(word))
}

/// A name that no item has. Refused where it isn't there, `Missing`, no name, `UnknownWord`, or taken: `Duplicate`.
#[tactic(auto, unfolding(crate::specs::Named::new_name_in))]
pub fn new_name<'a, T: Named>(
    alloc: Global,
    text: &'a [u8],
    words: &'a [Token],
    items: &[T],
) -> Result<(Name, &'a [Token]), LineError>
    ensures { Gives (λ x. (x.0, words_of text.now x.1.now)) result (new_name_in T.name items.now (words_of text.now words.now)) }
{
    let (word, rest) = first(text, words)?;
    fresh(word, is_taken(items, word))?;
    Ok((Name::new(alloc, word)?, rest))
}

/// The place of the item that is named. Refused where the name isn't there, `Missing`, or no item has it: `UnknownWord`.
#[tactic(auto, unfolding(crate::specs::Named::declared_in))]
pub fn declared<'a, T: Named>(
    text: &'a [u8],
    words: &'a [Token],
    items: &[T],
) -> Result<(usize, &'a [Token]), LineError>
    ensures given { Gives (λ x. (x.0, words_of text.now x.1.now)) result (declared_in T.name items.now (words_of text.now words.now)) }
    ensures within { IfOk result (λ x. x.0 < length items.now) }
{
    let (word, rest) = first(text, words)?;
    match place_of(items, word) {
        Some(place) => Ok((place, rest)),
        None => Err(LineError::Fault(Cause::UnknownWord)),
    }
}
