//! The atomic step of a board.

use ink_base::Addr;

/// One access of one actor to one word. Each is atomic.
#[derive(Clone, Copy, Debug, PartialEq, Eq)]
pub enum Access {
    /// Reads the word.
    Load(Addr),
    /// Writes the word.
    Store(Addr, u64),
    /// Writes `new` where the word is `expect`, and else leaves it.
    Exchange { addr: Addr, expect: u64, new: u64 },
    /// Adds to the word.
    Add { addr: Addr, by: u64 },
}
