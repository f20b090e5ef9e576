//! Why a text is no job.

ghost use Rattle.std.specs.Prelude.{◌≡◌};
ghost use Rattle.ink_base.specs.declared.fault.JobAnswer.TheVariants.{NoMemory as out_of_memory};

use crate::memory::NoMemory;
use std::alloc::{AllocError, AllocFailed};

/// What is wrong at a line of a job text.
#[derive(Clone, Copy, Debug, PartialEq, Eq)]
pub enum Cause {
    /// A byte that no text has.
    BadByte,
    /// A word that may not stand there.
    UnknownWord,
    /// A word that should be a number and isn't 1 to 10 digits.
    BadNumber,
    /// A name or priority that is taken.
    Duplicate,
    /// Something that has to be there isn't.
    Missing,
    /// A number or a count out of its range.
    OverLimit,
    /// A jump or a next task that leads nowhere.
    BadTarget,
    /// A pipe, timer or task of another thread.
    BadOwner,
    /// A section header that is not the next one.
    BadSection,
    /// A word of an image that isn't 16 hexadecimal digits.
    BadWord,
    /// An image that has another number of words than its program needs.
    WrongShape,
    /// An image in which a word contradicts the program or the other words.
    NotStanding,
    /// An image whose counts have no room left for its job.
    Worn,
}

/// The first fault of a text: its line, counted from 1, and its cause.
#[derive(Clone, Copy, Debug, PartialEq, Eq)]
pub struct JobFault {
    pub line: u32,
    pub cause: Cause,
}

/// Why a text gives no job.
#[derive(Clone, Copy, Debug)]
pub enum JobAnswer {
    /// The first fault of the text.
    Fault(JobFault),
    /// There was no memory.
    NoMemory,
}

impl From<AllocError> for JobAnswer {
    ghost from_gives = { λ _ e. e ≡ out_of_memory };

    fn from(_e: AllocError) -> JobAnswer {
        JobAnswer::NoMemory
    }
}

impl<T: Drop> From<AllocFailed<T>> for JobAnswer {
    ghost from_gives = { λ _ e. e ≡ out_of_memory };

    fn from(_e: AllocFailed<T>) -> JobAnswer {
        JobAnswer::NoMemory
    }
}

impl From<NoMemory> for JobAnswer {
    ghost from_gives = { λ _ e. e ≡ out_of_memory };

    fn from(_e: NoMemory) -> JobAnswer {
        JobAnswer::NoMemory
    }
}
