//! The sections that may follow the power trace.

ghost use Rattle.std.specs.Prelude.{◌≡◌};
ghost use Rattle.ink_base.specs.Checks.{words_of};
ghost use Rattle.ink_base.specs.Gives.{Gives};
ghost use Rattle.power_trace.specs.Tails.{no_tails, allows, tail_header};

use ink_base::checks::{end, word};
use ink_base::{Cause, LineError, Token};

/// Which sections may follow `[power]` in a text: an image with words of either version, a claimed text, a radio script. A section that may
/// follow needn't.
#[derive(Clone, Copy)]
pub struct Tails {
    pub image1: bool,
    pub image2: bool,
    pub claim: bool,
    pub radio: bool,
}

impl Tails {
    /// Nothing may follow.
    pub fn none() -> Tails
        ensures { result ≡ no_tails }
    {
        Tails {
            image1: false,
            image2: false,
            claim: false,
            radio: false,
        }
    }

    /// Whether this word is the header of a section that may follow.
    pub fn allows(self, header: &[u8]) -> bool
        ensures { result ≡ allows self header.now }
    {
        (self.image1 && header == b"[image1]".as_slice())
            || (self.image2 && header == b"[image2]".as_slice())
            || (self.claim && header == b"[claim]".as_slice())
            || (self.radio && header == b"[radio]".as_slice())
    }
}

/// The header behind so many charges. Refused where its section may not follow, `BadSection`, where no charge stands before it, `Missing`,
/// and where a word is left over: `UnknownWord`.
#[tactic(auto, unfolding(crate::specs::Tails::tail_header))]
pub fn tail_header(
    tails: Tails,
    charges: usize,
    text: &[u8],
    words: &[Token],
) -> Result<(), LineError>
    ensures { Gives (λ x. x) result (tail_header tails charges (words_of text.now words.now)) }
{
    match words {
        [] => Err(LineError::Fault(Cause::BadSection)),
        [header, rest @ ..] => {
            if !tails.allows(word(text, header)) {
                Err(LineError::Fault(Cause::BadSection))
            } else if charges == 0 {
                Err(LineError::Fault(Cause::Missing))
            } else {
                end(text, rest)
            }
        }
    }
}
