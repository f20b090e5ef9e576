//! Why a line of a text was not read.

ghost use Rattle.std.specs.Prelude.{◌≡◌};
ghost use Rattle.ink_base.specs.declared.line_error.LineError.TheVariants.{NoMemory as out_of_memory};
ghost use Rattle.ink_base.specs.Gives.{answer_at};

use crate::fault::{Cause, JobAnswer, JobFault};
use crate::memory::NoMemory;
use std::alloc::{AllocError, AllocFailed};

/// Why a line was not read: its first fault from the left, or no memory.
#[derive(Clone, Copy)]
pub enum LineError {
    /// The first fault of the line.
    Fault(Cause),
    /// There was no memory.
    NoMemory,
}

impl LineError {
    /// The same answer, with the number of the line.
    pub fn at(self, line: u32) -> JobAnswer
        ensures { result ≡ answer_at line self }
    {
        match self {
            LineError::Fault(cause) => JobAnswer::Fault(JobFault { line, cause }),
            LineError::NoMemory => JobAnswer::NoMemory,
        }
    }
}

impl From<AllocError> for LineError {
    ghost from_gives = { λ _ e. e ≡ out_of_memory };

    fn from(_e: AllocError) -> LineError {
        LineError::NoMemory
    }
}

impl<T: Drop> From<AllocFailed<T>> for LineError {
    ghost from_gives = { λ _ e. e ≡ out_of_memory };

    fn from(_e: AllocFailed<T>) -> LineError {
        LineError::NoMemory
    }
}

impl From<NoMemory> for LineError {
    ghost from_gives = { λ _ e. e ≡ out_of_memory };

    fn from(_e: NoMemory) -> LineError {
        LineError::NoMemory
    }
}
