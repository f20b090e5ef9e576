//! Where the words of a program stand.

use ink_base::Addr;
use sqlite_items::Items;

/// Where the words of a thread stand: its commit word, the first word of its pages, the number of words of its block (one copy of
/// the header and the state), and the first word of its log.
#[derive(Clone, Copy)]
pub struct ThreadPlace {
    pub commit: Addr,
    pub first: Addr,
    pub words: u32,
    pub log: Addr,
}

/// Where the words of a queue stand: its tail, its first slot, and how many slots it has.
#[derive(Clone, Copy)]
pub struct QueuePlace {
    pub tail: Addr,
    pub slots: Addr,
    pub places: u8,
}

/// Where the words of a program stand: the code of each task, each thread, the ring of each pipe; the number of private words,
/// which are those before the shared ones; each thread's queue, the first ACK, the clock, the first SRC; and the number of all words.
#[derive(Drop)]
pub struct Layout {
    pub tasks: Items<Addr>,
    pub threads: Items<ThreadPlace>,
    pub rings: Items<Addr>,
    pub private: u32,
    pub queues: Items<QueuePlace>,
    pub acks: Addr,
    pub clock: Addr,
    pub srcs: Addr,
    pub words: u32,
}
