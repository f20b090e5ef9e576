//! Where the words that a source uses stand.

use fram_words::{Access, QueuePlace, src_word};
use ink_base::{Addr, SourceId};

/// A source's number, the queue that it feeds, and the addresses of its ACK and its SRC.
#[derive(Clone, Copy)]
pub struct Port {
    pub source: SourceId,
    pub queue: QueuePlace,
    pub ack: Addr,
    pub src: Addr,
}

impl Port {
    ghost use Rattle.std.specs.Prelude.{◌≡◌, ◌+◌, ◌<◌, ◌^◌};
    ghost use Rattle.fram_words.specs.declared.access.Access.TheVariants as access;
    ghost use Rattle.fram_words.specs.Held.{src_word};
    ghost use Rattle.push_core.specs.Table.{IsPort, slot_at};

    /// The address of the slot of a position.
    pub fn slot_at(&self, position: u32) -> Addr
        requires { IsPort self.now }
        ensures { result ≡ slot_at self.now position }
    {
        self.queue.slots + position % self.queue.places as u32
    }

    /// The exchange that moves TAIL by one from this position.
    pub(crate) fn moved_tail(&self, tail: u32) -> Access
        ensures { result ≡ access.Exchange self.now.queue.tail tail (tail + 1) }
    {
        Access::Exchange {
            addr: self.queue.tail,
            expect: tail as u64,
            new: tail as u64 + 1,
        }
    }

    /// The store of SRC with these numbers.
    pub(crate) fn stored_src(&self, accepted: u32, next: u32) -> Access
        ensures { result ≡ access.Store self.now.src (src_word accepted next) }
    {
        Access::Store(self.src, src_word(accepted, next))
    }
}
