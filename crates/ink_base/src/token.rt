//! Pieces of a text.

ghost use Rattle.std.specs.Prelude.{◌≡◌};
ghost use Rattle.ink_base.specs.declared.token.TextAnswer.TheVariants.{NoMemory as out_of_memory};

use std::alloc::{AllocError, AllocFailed};

/// A word of a text: the number of its line, counted from 1, its first byte and the byte behind it.
#[derive(Clone, Copy)]
pub struct Token {
    pub line: u32,
    pub start: u32,
    pub stop: u32,
}

/// The words of a text in order, and the number of its lines.
#[derive(Drop)]
pub struct Tokens {
    pub list: Vec<Token>,
    pub lines: u32,
}

/// Why a text has no tokens.
#[derive(Clone, Copy)]
pub enum TextAnswer {
    /// The offset of the first byte that no text has.
    NotAscii { offset: u32 },
    /// There was no memory.
    NoMemory,
}

impl From<AllocError> for TextAnswer {
    ghost from_gives = { λ _ e. e ≡ out_of_memory };

    fn from(_e: AllocError) -> TextAnswer {
        TextAnswer::NoMemory
    }
}

impl<T: Drop> From<AllocFailed<T>> for TextAnswer {
    ghost from_gives = { λ _ e. e ≡ out_of_memory };

    fn from(_e: AllocFailed<T>) -> TextAnswer {
        TextAnswer::NoMemory
    }
}
