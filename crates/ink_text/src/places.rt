//! Where sections stand among the tokens of a text.

ghost use Rattle.std.specs.Prelude.{◌≡◌, ◌<◌, ◌≤◌, ◌^◌, length, drop};
ghost use Rattle.ink_base.specs.Suffix.{IsSuffix};

use ink_base::{Token, Tokens};

/// The tokens from an index on.
pub fn tokens_from(tokens: &Tokens, at: u32) -> &[Token]
    requires { at ≤ length tokens.now.list.items }
    ensures { result.now ≡ drop at tokens.now.list.items }
{
    let (_before, from) = tokens.list.as_slice().split_at(at as usize);
    from
}

/// The index from which on these are the tokens.
pub fn index_of(tokens: &Tokens, rest: &[Token]) -> u32
    requires few { length tokens.now.list.items < 2 ^ 32 }
    requires last { IsSuffix rest.now tokens.now.list.items }
    ensures within { result ≤ length tokens.now.list.items }
    ensures place { rest.now ≡ drop result tokens.now.list.items }
{
    (tokens.list.len() - rest.len()) as u32
}
