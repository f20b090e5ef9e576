//! The words of a thread's header.

ghost use Rattle.std.specs.Prelude.{◌≡◌, ◌/◌, ◌<◌};
ghost use Rattle.fram_words.specs.Header as header;

/// A word of a thread's header, by what it holds.
#[derive(Clone, Copy)]
pub enum Header {
    /// The stamp of the thread's last commit, 0 for none.
    Stamp,
    /// The word of the next task, which tells whether a chain runs.
    Next,
    /// The time in ticks of the chain's first commit.
    First,
    /// The origin word of the chain's event.
    Origin,
    /// The value of that event.
    Value,
    /// The number of queue events that the thread has finished.
    Finished,
    /// The number of services that were served to their end.
    Served,
    /// The number of services that a trap ended.
    Trapped,
    /// The number of services that expired.
    Expired,
    /// The number of outputs.
    Outputs,
    /// The number of items written to the pipe of this number, in the block of its writer.
    Written(u32),
    /// The number of items taken from the pipe of this number, in the block of its reader.
    Taken(u32),
    /// The due word of the timer of this number.
    Due(u32),
    /// The period in ticks of the timer of this number, 0 for one that is due once.
    Period(u32),
}

impl Header {
    /// The number of words of the header. The thread's state stands behind them.
    pub const WORDS: u32 = 48;

    /// The number of the word in the thread's block.
    #[inline(always)]
    pub fn word(self) -> u32
        requires { header.IsHeader self }
        ensures number { result ≡ header.word_of self }
        ensures inside { result < header.words }
    {
        match self {
            Header::Stamp => 0,
            Header::Next => 1,
            Header::First => 2,
            Header::Origin => 3,
            Header::Value => 4,
            Header::Finished => 5,
            Header::Served => 6,
            Header::Trapped => 7,
            Header::Expired => 8,
            Header::Outputs => 9,
            Header::Written(pipe) => 10 + pipe,
            Header::Taken(pipe) => 18 + pipe,
            Header::Due(timer) => 26 + 2 * timer,
            Header::Period(timer) => 27 + 2 * timer,
        }
    }

    /// The page of eight words on which the word stands.
    #[inline(always)]
    pub fn page(self) -> u32
        requires { header.IsHeader self }
        ensures { result ≡ header.word_of self / 8 }
    {
        self.word() / 8
    }
}
