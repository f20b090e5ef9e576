//! Where the words of a thread stand.

ghost use Rattle.std.specs.Prelude.{◌≡◌, ◌<◌};
ghost use Rattle.fram_words.specs.Places as places;
ghost use Rattle.fram_words.specs.Steps.{access_of, place_of};
ghost use Rattle.thread_state.specs.Blocks.{IsPlaced, IsCommitWord, IsWithin, address_in, address_of, at_block};

use crate::buffer::place_in;
use fram_words::{Access, Place, Step};
use ink_base::{Addr, ThreadId};

/// A thread's header and state: the address of its commit word, the address of the first word of its pages, and the number of words
/// of one copy. A page has eight words, and two places, one after the other; bit `n` of the commit word names the committed place
/// of page `n`.
#[derive(Clone, Copy)]
pub struct Block {
    pub commit: Addr,
    pub first: Addr,
    pub words: u32,
}

/// The address of the committed copy of a word.
pub fn committed_at(block: Block, commit_word: u64, word: u32) -> Addr
    requires placed { IsPlaced block }
    requires allowed { IsCommitWord block commit_word }
    requires within { word < block.words }
    ensures { result ≡ address_in block commit_word word }
{
    block.address(place_in(ThreadId(0), commit_word, word))
}

impl Block {
    // The access to the address of its place.
    pub(crate) fn access(self, step: Step) -> Access
        requires placed { IsPlaced self }
        requires within { IsWithin self (places.place_of (access_of step)) }
        ensures { result ≡ at_block self (access_of step) }
    {
        match step {
            Step::Load(place) => Access::Load(self.address(place)),
            Step::Store(place, word) => Access::Store(self.address(place), word),
            Step::Exchange { place, expect, new } => Access::Exchange {
                addr: self.address(place),
                expect,
                new,
            },
            Step::Add { place, by } => Access::Add {
                addr: self.address(place),
                by,
            },
        }
    }

    // The address of a place of the block's thread.
    fn address(self, place: Place) -> Addr
        requires placed { IsPlaced self }
        requires within { IsWithin self (place_of place) }
        ensures { result ≡ address_of self (place_of place) }
    {
        match place {
            Place::Commit { .. } => self.commit,
            Place::Page {
                page,
                copy,
                word,
                ..
            } => self.first + 16 * page + 8 * copy + word,
            _ => unreachable!(),
        }
    }
}
