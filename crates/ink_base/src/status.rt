//! How a command ends.

use crate::fault::JobFault;

/// How a command ends.
#[derive(Clone, Copy, Debug, PartialEq, Eq)]
pub enum Status {
    /// The whole text was written.
    Done,
    /// The words are no command. Nothing was read or written.
    Usage,
    /// The source was read to its end, and its bytes are no job. Nothing was written.
    Refused(JobFault),
    /// A read failed. Nothing was run or written.
    ReadFault,
    /// A write failed. The sink holds a prefix of the text.
    WriteFault,
    /// There was no memory. Nothing was written.
    NoMemory,
    /// The source has more bytes than a job may have. Nothing was run or written.
    TooLong,
}
