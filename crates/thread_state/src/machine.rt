//! The writes of a task.

ghost use Rattle.std.specs.Prelude.{◌≡◌, ℕ, ◌+◌, ◌*◌, ◌/◌, ◌%◌, ◌<◌, ◌↔◌, IsTrue, IsSome, IsNone};
ghost use Rattle.thread_state.specs.Blocks.{IsPlaced, IsCommitWord};
ghost use Rattle.thread_state.specs.Pages.{working_mask};
ghost use Rattle.thread_state.specs.Writes.{begun, IsAtRest, CanWrite, wanted, read_of, write_of, commit_of, taken, prepared, discarded};

use crate::block::Block;
use crate::buffer::Buffer;
use fram_words::Access;
use ink_base::ThreadId;
use std::marker::Model;

// The block's own thread. A block has the words of one thread alone, so that any number names it.
const OWN: ThreadId = ThreadId(0);

/// The writes of one thread since its last commit, at the addresses of its block. A write goes to the other copy of its page than the
/// committed one; a page whose other copy is in use is dirty. Contracts see the block, the registers, and the page that is being copied.
#[derive(Clone, Copy)]
pub struct BufferMachine {
    block: Block,
    buffer: Buffer,
    page: Option<u32>,
}

impl Model for BufferMachine {
    ghost use Rattle.std.specs.Prelude.{refl};
    ghost use Rattle.thread_state.specs.Writes.{Writes, IsKept};

    ghost Value = { Writes };

    ghost view = { λ m. record { block = m.block; buffer = m.buffer; under_way = m.page } };

    ghost invariant = { λ m. IsKept m.block m.buffer m.page };

    ghost inverse = { λ w. record { block = w.block; buffer = w.buffer; page = w.under_way } };

    ghost inverse_ok = { λ m is. refl };
}

impl BufferMachine {
    /// A machine with no dirty page, at a block and its commit word.
    pub fn begin(block: Block, commit_word: u64) -> BufferMachine
        requires placed { IsPlaced block }
        requires allowed { IsCommitWord block commit_word }
        ensures { result ≡ begun block commit_word }
    {
        BufferMachine {
            block,
            buffer: Buffer::begin(commit_word),
            page: None,
        }
    }

    /// The next access of a copy under way; `None` exactly where nothing is left to copy.
    pub fn want(&self) -> Option<Access>
        ensures access { result ≡ wanted self.now }
        ensures none { IsNone result ↔ IsAtRest self.now }
    {
        Some(self.block.access(self.buffer.copy(OWN, self.page?)))
    }

    /// Goes on after the wanted access, which answered this word.
    pub fn take(&mut self, word: u64)
        requires { IsSome self.old.under_way }
        ensures { self.new ≡ taken self.old word }
    {
        if let Some(page) = self.page {
            if !self.buffer.copied(page, word) {
                self.page = None;
            }
        }
    }

    /// Makes the page of the word ready for writes: where it isn't dirty, `want` then gives the sixteen accesses that copy it, and
    /// it is dirty after them; where it is dirty, nothing changes.
    pub fn prepare_write(&mut self, word: u32)
        requires within { word < self.old.block.words }
        requires rest { IsAtRest self.old }
        ensures { self.new ≡ prepared self.old (word / 8) }
    {
        let page = word / 8;
        if !self.buffer.is_dirty(page) {
            self.page = Some(page);
        }
    }

    /// Whether the page of the word is dirty, so that the word may be written.
    pub fn is_dirty(&self, word: u32) -> bool
        requires { word < self.now.block.words }
        ensures { IsTrue result ↔ CanWrite self.now word }
    {
        self.buffer.is_dirty(word / 8)
    }

    /// The access that reads a word: the last that was written, else the committed one.
    pub fn read(&self, word: u32) -> Access
        requires within { word < self.now.block.words }
        requires rest { IsAtRest self.now }
        ensures { result ≡ read_of self.now word }
    {
        self.block.access(self.buffer.get(OWN, word))
    }

    /// The access that writes a word, whose page is dirty.
    pub fn write(&self, word: u32, value: u64) -> Access
        requires within { word < self.now.block.words }
        requires rest { IsAtRest self.now }
        requires dirty { CanWrite self.now word }
        ensures { result ≡ write_of self.now word value }
    {
        self.block.access(self.buffer.write(OWN, word, value))
    }

    /// Gives all writes up: no page is dirty.
    pub fn discard(&mut self)
        requires { IsAtRest self.old }
        ensures { self.new ≡ discarded self.old }
    {
        self.buffer.discard();
    }

    /// The store that makes all writes current: it turns the bits of the dirty pages in the commit word.
    pub fn commit(&self) -> Access
        requires { IsAtRest self.now }
        ensures access { result ≡ commit_of self.now }
        ensures allowed { IsCommitWord self.now.block (working_mask self.now.buffer) }
    {
        self.block.access(self.buffer.commit(OWN))
    }
}
