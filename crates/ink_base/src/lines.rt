//! The lines that tokens make up.

ghost use Rattle.std.specs.Prelude.{◌≡◌, ◌<◌, ℕ, List, ◌==◌, ◌∷◌, length};
ghost use Rattle.std.specs.List.{prefix_len};
ghost use Rattle.ink_base.specs.Checks.{words_of};
ghost use Rattle.ink_base.specs.Suffix.{IsSuffix};
ghost use Rattle.ink_base.specs.TokenLines.{token_lines};

use crate::token::Token;

fn line_len(tokens: &[Token], line: u32) -> usize
    ensures { result ≡ prefix_len (λ t. t.line == line) tokens.now }
{
    tokens.iter().take_while(|t| t.line == line).count()
}

/// The number of the first line, its tokens, and the tokens behind it.
pub fn split_line(tokens: &[Token]) -> (u32, &[Token], &[Token])
    requires { 0 < length tokens.now }
    ensures line { (text : List ℕ) → token_lines text tokens.now ≡ record { number = result.0; words = words_of text result.1.now } ∷ token_lines text result.2.now }
    ensures shorter { length result.2.now < length tokens.now }
    ensures suffix { IsSuffix result.2.now tokens.now }
{
    let line = tokens[0].line;
    let (words, rest) = tokens.split_at(line_len(tokens, line));
    (line, words, rest)
}
