//! What is read of a text, and the first of some texts that has another fault than it should.

use ink_base::limits::TEXT_BYTES;
use ink_base::{Cause, JobAnswer, JobFault, NoMemory, job_tokens};
use std::alloc::Global;
use task_asm::read_program;
use task_isa::{Lines, Program};

/// The program that a text begins with, the lines of its parts, and the number of words up to the next section.
pub fn read(alloc: Global, text: &str) -> Result<(Program, Lines, u32), JobAnswer> {
    let bytes = text.as_bytes();
    if bytes.len() > TEXT_BYTES {
        return Err(JobAnswer::NoMemory);
    }
    let tokens = job_tokens(alloc, bytes)?;
    read_program(alloc, bytes, &tokens)
}

/// The first fault of the program that a text begins with.
pub fn fault_of(alloc: Global, text: &str) -> Option<JobFault> {
    match read(alloc, text) {
        Err(JobAnswer::Fault(fault)) => Some(fault),
        _ => None,
    }
}

/// One text behind another.
pub fn joined(alloc: Global, before: &str, text: &str) -> Result<String, NoMemory> {
    let mut whole = String::new(alloc);
    whole.push_str(before)?;
    whole.push_str(text)?;
    Ok(whole)
}

/// A text, and the line and cause of its first fault.
pub type Case = (&'static str, u32, Cause);

fn is_right(alloc: Global, before: &str, case: &Case) -> Result<bool, NoMemory> {
    let whole = joined(alloc, before, case.0)?;
    let fault = JobFault {
        line: case.1,
        cause: case.2,
    };
    Ok(fault_of(alloc, whole.as_str()) == Some(fault))
}

/// The number of the first case whose text, behind `before`, has another first fault.
pub fn first_wrong(alloc: Global, before: &str, cases: &[Case]) -> Result<Option<usize>, NoMemory> {
    for (i, case) in cases.iter().enumerate() {
        if !is_right(alloc, before, case)? {
            return Ok(Some(i));
        }
    }
    Ok(None)
}
