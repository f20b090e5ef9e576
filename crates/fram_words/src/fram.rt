//! A board's words.

use crate::access::Access;
use ink_base::NoMemory;
use std::alloc::Global;
use std::marker::Model;

/// The words of a board, by their addresses from 0.
#[derive(Drop)]
pub struct Fram {
    words: Vec<u64>,
}

impl Model for Fram {
    ghost use Rattle.std.specs.Prelude.{ℕ, List, ◌<◌, ◌^◌, length};

    ghost Value = { List ℕ };

    ghost view = { λ c. c.words.items };

    ghost invariant = { λ c. length c.words.items < 2 ^ 32 };
}

impl Fram {
    ghost use Rattle.std.specs.Prelude.{◌≡◌, ◌<◌, IfOk, length, slice_index};
    ghost use Rattle.fram_words.specs.Words.{address_of, performed, FitsWords, zeros};

    /// So many zeros.
    pub fn new(alloc: Global, words: u32) -> Result<Fram, NoMemory>
        ensures { IfOk result (λ fram. fram ≡ zeros words) }
    {
        let mut all = Vec::new(alloc);
        all.resize(words as usize, 0)?;
        Ok(Fram { words: all })
    }

    /// Every word becomes 0. It takes no memory.
    pub fn clear(&mut self)
        ensures { self.new ≡ zeros (length self.old) }
    {
        self.words.fill(0);
    }

    /// Makes the access, and answers the word that stood there.
    pub fn perform(&mut self, access: Access) -> u64
        requires within { address_of access < length self.old }
        requires fits { FitsWords self.old access }
        ensures answer { result ≡ slice_index self.old (address_of access) }
        ensures after { self.new ≡ performed access self.old }
    {
        match access {
            Access::Load(addr) => self.words[addr as usize],
            Access::Store(addr, word) => {
                let old = self.words[addr as usize];
                self.words[addr as usize] = word;
                old
            }
            Access::Exchange { addr, expect, new } => {
                let old = self.words[addr as usize];
                if old == expect {
                    self.words[addr as usize] = new;
                }
                old
            }
            Access::Add { addr, by } => {
                let old = self.words[addr as usize];
                self.words[addr as usize] = old + by;
                old
            }
        }
    }

    /// The word at an address; 0 beyond the last one.
    pub fn word(&self, addr: u32) -> u64
        ensures { result ≡ slice_index self.now addr }
    {
        self.words.get(addr as usize).copied().unwrap_or(0)
    }

    /// The number of words.
    pub fn len(&self) -> u32
        ensures { result ≡ length self.now }
    {
        self.words.len() as u32
    }

    /// The words themselves.
    pub fn into_words(self) -> Vec<u64>
        ensures { result.items ≡ self }
    {
        let Fram { words } = self;
        words
    }
}
