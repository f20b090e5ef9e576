//! The answers of calls that didn't do all that they were asked.

use thiserror::Error;

/// One call of a source or a sink failed. It took or appended nothing.
#[derive(Clone, Copy, Drop)]
pub struct Failed;

/// A text wasn't written whole: a call of its sink failed.
#[derive(Clone, Copy, Debug, Drop, Error)]
#[error("write fault")]
pub struct WriteFault;

/// Why a job wasn't read.
#[derive(Clone, Copy, Debug, Drop, Error)]
pub enum ReadAnswer {
    /// A call of the source failed.
    #[error("read fault")]
    ReadFault,
    /// The job has more bytes than a job may have.
    #[error("job too long")]
    TooLong,
    /// The memory for the job was refused.
    #[error("no memory")]
    NoMemory,
}
