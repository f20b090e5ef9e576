//! The registers of a thread's writes.

ghost use Rattle.std.specs.Int.{bit_at};
ghost use Rattle.std.specs.Prelude.{◌≡◌, ◌/◌, ◌%◌, ◌<◌};
ghost use Rattle.fram_words.specs.Header.{word_of, IsHeader};
ghost use Rattle.fram_words.specs.Steps.{access_of, place_of};
ghost use Rattle.thread_state.specs.Buffers.{goes_on};
ghost use Rattle.thread_state.specs.Pages as pages;
ghost use Rattle.thread_state.specs.Steps.{IsOnPage, IsWordOfPage};

use crate::copying::Copying;
use fram_words::{Header, Place, Step};
use ink_base::ThreadId;
use std::marker::Model;

/// The registers of a thread's writes since its last commit: its commit word, the set of pages whose other copy is in use, and how
/// far the copying of a page is. Contracts see the registers.
#[derive(Clone, Copy)]
pub struct Buffer {
    commit: u64,
    dirty: u64,
    copying: Copying,
}

impl Model for Buffer {
    ghost use Rattle.std.proofs.Common.{ap};
    ghost use Rattle.thread_state.specs.Pages.{Buffer as PageBuffer};
    ghost use Rattle.thread_state.specs.Buffers.{copying_in, copying_out, copying_out-copying_in, IsInPage};

    ghost Value = { PageBuffer };

    ghost view = { λ b. record { commit = b.commit; dirty = b.dirty; copying = copying_in b.copying } };

    ghost invariant = { λ b. IsInPage b.copying };

    ghost inverse = { λ b. record { commit = b.commit; dirty = b.dirty; copying = copying_out b.copying } };

    ghost inverse_ok = { λ b is. ap (λ c. record { commit = b.commit; dirty = b.dirty; copying = c }) (copying_out-copying_in b.copying) };
}

impl Buffer {
    /// No writes, at a commit word.
    pub fn begin(commit: u64) -> Buffer
        ensures { result ≡ pages.no_writes commit }
    {
        Buffer {
            commit,
            dirty: 0,
            copying: Copying::Loading { word: 0 },
        }
    }

    /// Gives all writes up.
    pub fn discard(&mut self)
        ensures { self.new ≡ pages.no_writes self.old.commit }
    {
        *self = Buffer::begin(self.commit);
    }

    /// The other copy of the page is in use.
    pub fn is_dirty(&self, page: u32) -> bool
        requires { page < 64 }
        ensures { result ≡ pages.is_dirty self.now page }
    {
        self.dirty >> page & 1 == 1
    }

    /// The next access of a write to a word of the thread's block: of the copying of its page first, where the page isn't dirty.
    #[inline(always)]
    pub fn put(&self, thread: ThreadId, word: u32, value: u64) -> Step
        requires { word < 512 }
        ensures access { access_of result ≡ pages.put_access thread.0 self.now word value }
        ensures on { IsOnPage thread.0 (word / 8) (access_of result) }
    {
        if self.is_dirty(word / 8) {
            self.write(thread, word, value)
        } else {
            self.copy(thread, word / 8)
        }
    }

    /// The access that writes a word of the thread's block, whose page is dirty.
    pub fn write(&self, thread: ThreadId, word: u32, value: u64) -> Step
        requires { word < 512 }
        ensures access { access_of result ≡ pages.write_access thread.0 self.now word value }
        ensures on { IsOnPage thread.0 (word / 8) (access_of result) }
    {
        Step::Store(place_in(thread, self.mask(), word), value)
    }

    /// The access that reads a word of the thread's block: the last that was written, else the committed one.
    pub fn get(&self, thread: ThreadId, word: u32) -> Step
        requires { word < 512 }
        ensures access { access_of result ≡ pages.get_access thread.0 self.now word }
        ensures on { IsOnPage thread.0 (word / 8) (access_of result) }
    {
        Step::Load(place_in(thread, self.mask(), word))
    }

    /// The store that makes all writes current: it turns the bits of the dirty pages in the commit word.
    pub fn commit(&self, thread: ThreadId) -> Step
        ensures { access_of result ≡ pages.commit_access thread.0 self.now }
    {
        Step::Store(Place::Commit { thread }, self.mask())
    }

    /// The next access of the copying of a page.
    pub fn copy(&self, thread: ThreadId, page: u32) -> Step
        requires { page < 64 }
        ensures access { access_of result ≡ pages.copy_access thread.0 self.now.commit page self.now.copying }
        ensures on { IsOnPage thread.0 page (access_of result) }
    {
        let copy = copy_of(self.commit, page);
        match self.copying {
            Copying::Loading { word } => Step::Load(Place::Page {
                thread,
                page,
                copy,
                word,
            }),
            Copying::Storing { word, value } => Step::Store(
                Place::Page {
                    thread,
                    page,
                    copy: 1 - copy,
                    word,
                },
                value,
            ),
        }
    }

    /// Goes on with the copying of a page, whose access answered this word, and answers whether there is more to copy.
    pub fn copied(&mut self, page: u32, word: u64) -> bool
        requires { page < 64 }
        ensures registers { self.new ≡ pages.after_copy self.old page self.old.copying word }
        ensures more { result ≡ goes_on self.old.copying }
    {
        match self.copying {
            Copying::Loading { word: k } => {
                self.copying = Copying::Storing {
                    word: k,
                    value: word,
                };
                true
            }
            Copying::Storing { word: 7, .. } => {
                self.dirty |= 1 << page;
                self.copying = Copying::Loading { word: 0 };
                false
            }
            Copying::Storing { word: k, .. } => {
                self.copying = Copying::Loading { word: k + 1 };
                true
            }
        }
    }

    // The mask that names the copies in use: the commit word once the writes are current.
    fn mask(&self) -> u64
        ensures { result ≡ pages.working_mask self.now }
    {
        self.commit ^ self.dirty
    }
}

/// The word of a thread's block in the copies that a mask names.
pub fn place_in(thread: ThreadId, mask: u64, word: u32) -> Place
    requires { word < 512 }
    ensures place { place_of result ≡ pages.place_in thread.0 mask word }
    ensures on { IsWordOfPage thread.0 (word / 8) (place_of result) }
{
    Place::Page {
        thread,
        page: word / 8,
        copy: copy_of(mask, word / 8),
        word: word % 8,
    }
}

/// A word of a thread's header in the copies that a mask names.
#[inline(always)]
pub fn header_in(thread: ThreadId, mask: u64, header: Header) -> Place
    requires { IsHeader header }
    ensures place { place_of result ≡ pages.place_in thread.0 mask (word_of header) }
    ensures on { IsWordOfPage thread.0 (word_of header / 8) (place_of result) }
{
    place_in(thread, mask, header.word())
}

// The copy of a page that a mask names.
fn copy_of(mask: u64, page: u32) -> u32
    requires { page < 64 }
    ensures named { result ≡ bit_at mask page }
    ensures two { result < 2 }
{
    (mask >> page & 1) as u32
}
