//! The names of the actors of a board.

ghost use Rattle.std.specs.Prelude.{◌≡◌, ◌<◌, IfSome};
ghost use Rattle.ink_text.specs.Names.{index_of, below, source_of, actor_of};

use ink_base::checks::is_digit;
use ink_base::{Actor, SourceId};

fn index(digits: &[u8]) -> Option<u8>
    ensures { result ≡ index_of digits.now }
{
    match digits {
        [d] => { if is_digit(*d) { Some(*d - b'0') } else { None } }
        [d, e] => {
            if is_digit(*d) && is_digit(*e) && *d != b'0' {
                Some(10 * (*d - b'0') + (*e - b'0'))
            } else {
                None
            }
        }
        _ => None,
    }
}

fn below(count: usize, index: Option<u8>) -> Option<usize>
    ensures same { result ≡ below count index }
    ensures within { IfSome result (λ i. i < count) }
{
    match index {
        Some(n) if usize::from(n) < count => Some(usize::from(n)),
        _ => None,
    }
}

/// The source that a word names, of so many.
pub fn source(count: usize, word: &[u8]) -> Option<usize>
    ensures named { result ≡ source_of count word.now }
    ensures within { IfSome result (λ i. i < count) }
{
    match word {
        [first, digits @ ..] => {
            if *first == b'S' {
                below(count, index(digits))
            } else {
                None
            }
        }
        [] => None,
    }
}

/// The actor that a word names, on a board of so many sources.
pub fn actor(sources: u8, word: &[u8]) -> Option<Actor>
    ensures { result ≡ actor_of sources word.now }
{
    if word == b"K".as_slice() {
        Some(Actor::Kernel)
    } else if word == b"T".as_slice() {
        Some(Actor::Clock)
    } else {
        source(usize::from(sources), word).map(|i| Actor::Source(SourceId(i as u8)))
    }
}
