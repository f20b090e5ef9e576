//! Bytes that are read and written.

use ink_io::{
    MemSink, MemSource, ReadAnswer, StdSink, StdSource, SureSink, SureSource, read_job,
    write_all_text,
};
use std::alloc::{AllocError, Global};
use std::test::Fail;

const TEXT: &[u8] = b"thread a";

const LINE: &[u8] = b"1 a 7\n";

// The job of a source that gives three bytes of the text at a call, and whose call of this number fails.
fn read_failing(alloc: Global, call: u64) -> Result<Result<Vec<u8>, ReadAnswer>, AllocError> {
    let mut source = MemSource::new(TEXT.to_vec(alloc)?, 3, [call].to_vec(alloc)?);
    Ok(read_job(alloc, &mut source))
}

fn is_read(alloc: Global, call: u64) -> Result<bool, AllocError> {
    match read_failing(alloc, call)? {
        Ok(job) => Ok(job.as_slice() == TEXT),
        Err(_) => Ok(false),
    }
}

fn is_read_fault(alloc: Global, call: u64) -> Result<bool, AllocError> {
    let job = read_failing(alloc, call)?;
    Ok(matches!(&job, Err(ReadAnswer::ReadFault)))
}

#[test]
fn a_job_is_read_in_chunks_and_a_failed_call_ends_it(rt: HostRuntime) -> Result<(), Fail> {
    assert!(rt; is_read(rt.alloc(), 9)?);
    assert!(rt; is_read_fault(rt.alloc(), 2)?);
    Ok(())
}

// So many blanks are read, or are too long.
fn blanks_read(alloc: Global, size: usize) -> Result<bool, AllocError> {
    let mut source = SureSource::new(vec![in alloc; b' '; size]?);
    match read_job(alloc, &mut source) {
        Ok(job) => Ok(job.len() == size),
        Err(_) => Ok(false),
    }
}

fn blanks_too_long(alloc: Global, size: usize) -> Result<bool, AllocError> {
    let mut source = SureSource::new(vec![in alloc; b' '; size]?);
    let job = read_job(alloc, &mut source);
    Ok(matches!(&job, Err(ReadAnswer::TooLong)))
}

#[test]
fn a_job_has_at_most_4194304_bytes(rt: HostRuntime) -> Result<(), Fail> {
    assert!(rt; blanks_read(rt.alloc(), 4194304)?);
    assert!(rt; blanks_too_long(rt.alloc(), 4194305)?);
    Ok(())
}

// A sink of this capacity takes three bytes at a call, and its call of this number fails. It ends with these bytes, which are the line
// exactly where the answer is Ok.
fn holds(alloc: Global, capacity: usize, call: u64, held: &[u8]) -> Result<bool, Fail> {
    let mut sink = MemSink::new(alloc, capacity, 3, [call].to_vec(alloc)?)?;
    let written = write_all_text(&mut sink, LINE).is_ok();
    Ok(sink.bytes() == held && written == (held == LINE))
}

#[test]
fn a_sink_of_three_bytes_a_call_holds_a_prefix_at_a_fault(rt: HostRuntime) -> Result<(), Fail> {
    let alloc = rt.alloc();
    assert!(rt; holds(alloc, 100, 9, LINE)?);
    assert!(rt; holds(alloc, 100, 2, b"1 a")?);
    assert!(rt; holds(alloc, 100, 1, b"")?);
    assert!(rt; holds(alloc, 6, 9, LINE)?);
    assert!(rt; holds(alloc, 5, 9, b"1 a")?);
    assert!(rt; write_all_text(&mut SureSink::new(), LINE).is_ok());
    Ok(())
}

fn reader_gives_text(alloc: Global) -> bool {
    let mut source = StdSource::new(TEXT);
    match read_job(alloc, &mut source) {
        Ok(job) => job.as_slice() == TEXT,
        Err(_) => false,
    }
}

fn writer_holds_line(alloc: Global) -> Result<bool, AllocError> {
    let mut held = vec![in alloc]?;
    let written = write_all_text(&mut StdSink::new(&mut held), LINE).is_ok();
    Ok(written && held.as_slice() == LINE)
}

#[test]
fn a_reader_of_std_is_a_source_and_a_writer_a_sink(rt: HostRuntime) -> Result<(), Fail> {
    assert!(rt; reader_gives_text(rt.alloc()));
    assert!(rt; writer_holds_line(rt.alloc())?);
    Ok(())
}
