//! What is said of a claim.

/// What is said of a claim, a text of which it is claimed that a run of a job prints it with its journal.
#[derive(Clone, Copy, Debug, PartialEq, Eq)]
pub enum Verdict {
    /// It is the text of a legal journal of the job.
    Yes,
    /// It isn't. The line, counted from 1, is where it first shows.
    No { line: u32 },
}
