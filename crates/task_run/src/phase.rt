//! The rows of the access table of a task.

use crate::sending::Sending;
use ink_base::SourceId;
use task_isa::Reg;

/// The access that comes next, with what was found for it. A write to a page whose other copy isn't in use yet copies the page first.
#[derive(Clone, Copy)]
pub enum Phase {
    /// Writes the time of the service's first commit.
    WriteFirst,
    /// Writes the origin of the event.
    WriteOrigin,
    /// Writes the value of the event.
    WriteValue,
    /// Writes the number of items that were taken from the pipe whose item the event is.
    WriteTaken,
    /// Reads the period of the timer whose event it is.
    ReadPeriod,
    /// Writes the word of that timer.
    WriteDue { word: u64 },
    /// Goes on with a running chain: loads the code word of its task's first instruction, or writes that there is no next task, where
    /// the chain has expired.
    Resume,
    /// Loads the code word of the next instruction.
    Fetch,
    /// Reads the state number of this index, for the register.
    ReadState { register: Reg, index: u32 },
    /// Writes the state number of this index.
    WriteState { index: u32, value: u32 },
    /// Reads the number of outputs, to put the value out.
    ReadCount { value: u32 },
    /// Stores the output of this index.
    StoreLog { index: u32, value: u32 },
    /// Writes the number of outputs.
    WriteCount { count: u32 },
    /// Loads the commit word of the reader of the pipe that is sent to.
    LoadReader { sending: Sending },
    /// Loads the number of items that the reader took.
    LoadTaken { sending: Sending, commit_word: u64 },
    /// Reads the number of items that were written.
    ReadWritten { sending: Sending, taken: u64 },
    /// Stores the item of this number in the ring.
    StoreItem { sending: Sending, written: u64 },
    /// Writes the number of items that were written, one more than this.
    WriteWritten { sending: Sending, written: u64 },
    /// Writes the word of the timer of this number, which is due so many ticks after the scan.
    WriteArmed { timer: u32, delay: u32, period: u32 },
    /// Writes the period of that timer.
    WritePeriod { timer: u32, period: u32 },
    /// Writes that the timer of this number is off.
    WriteStopped { timer: u32 },
    /// Writes the task that the chain goes on with, or that there is none.
    WriteNext,
    /// Writes the number of finished queue events.
    WriteFinished,
    /// Reads the number of services that ended this way.
    ReadTotal,
    /// Writes that number.
    WriteTotal { total: u64 },
    /// Writes the stamp of the commit.
    WriteStamp,
    /// Stores the commit word, which makes all writes current.
    StoreCommit,
    /// Stores the acknowledgement of the finished queue event, which has this source and count.
    StoreAck { source: SourceId, count: u8 },
    /// Stores the empty slot of the finished queue event.
    StoreEmpty,
    /// Nothing: the pick is served.
    Over,
}
