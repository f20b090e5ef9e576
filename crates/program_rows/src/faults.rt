//! Sources and sinks that fail at one call.

ghost use Rattle.std.specs.Prelude.{◌≤◌};

use crate::fixtures::{FIRST_JOB, FIRST_RUN, NEVER, called, sink_of, source_of};
use ink_base::Status;
use ink_io::{MemSink, NoMemory, SureSource};
use std::alloc::{AllocError, Global};
use std::test::Fail;
use std::thread::Threads;

// How a run of the first job ends whose source gives so many bytes at a call, and whose call of this number fails.
fn status_of_read<R: Threads + Sync>(
    alloc: Global,
    runtime: &R,
    chunk: usize,
    call: u64,
    sink: &mut MemSink,
) -> Result<Status, AllocError>
    requires { 1 ≤ chunk }
{
    let mut source = source_of(alloc, FIRST_JOB, chunk, call)?;
    let finish = called(alloc, runtime, "run", &mut source, sink)?;
    Ok(finish.status)
}

// A read that fails is a read fault, and nothing is written.
fn is_read_fault<R: Threads + Sync>(
    alloc: Global,
    runtime: &R,
    chunk: usize,
    call: u64,
) -> Result<bool, NoMemory>
    requires { 1 ≤ chunk }
{
    let mut sink = sink_of(alloc, 1, NEVER)?;
    let status = status_of_read(alloc, runtime, chunk, call, &mut sink)?;
    Ok(matches!(status, Status::ReadFault) && sink.bytes().is_empty())
}

fn is_done<R: Threads + Sync>(alloc: Global, runtime: &R, call: u64) -> Result<bool, NoMemory> {
    let mut sink = sink_of(alloc, 1, NEVER)?;
    let status = status_of_read(alloc, runtime, 1, call, &mut sink)?;
    Ok(matches!(status, Status::Done) && sink.bytes() == FIRST_RUN.as_bytes())
}

#[test]
fn a_read_that_fails_at_any_call_writes_nothing(rt: HostRuntime) -> Result<(), Fail> {
    for call in 1..195 {
        assert!(rt; is_read_fault(rt.alloc(), &rt, 1, call)?);
    }
    assert!(rt; is_done(rt.alloc(), &rt, 195)?);
    Ok(())
}

#[test]
fn a_read_that_fails_runs_nothing(rt: HostRuntime) -> Result<(), Fail> {
    assert!(rt; is_read_fault(rt.alloc(), &rt, 100, 2)?);
    Ok(())
}

fn sure_source(alloc: Global) -> Result<SureSource, AllocError> {
    let bytes = Vec::from_slice(alloc, FIRST_JOB.as_bytes())?;
    Ok(SureSource::new(bytes))
}

// How a run of the first job ends with this sink.
fn status_of_write<R: Threads + Sync>(
    alloc: Global,
    runtime: &R,
    sink: &mut MemSink,
) -> Result<Status, AllocError> {
    let mut source = sure_source(alloc)?;
    let finish = called(alloc, runtime, "run", &mut source, sink)?;
    Ok(finish.status)
}

// A write that fails at this call of so many bytes each leaves what was written before.
fn is_write_fault<R: Threads + Sync>(
    alloc: Global,
    runtime: &R,
    chunk: usize,
    call: u64,
    written: usize,
) -> Result<bool, NoMemory>
    requires { 1 ≤ chunk }
{
    let mut sink = sink_of(alloc, chunk, call)?;
    let status = status_of_write(alloc, runtime, &mut sink)?;
    let before = FIRST_RUN.as_bytes().get(..written);
    Ok(matches!(status, Status::WriteFault) && Some(sink.bytes()) == before)
}

// A run whose write of this number would fail makes fewer writes.
fn is_written<R: Threads + Sync>(alloc: Global, runtime: &R, call: u64) -> Result<bool, NoMemory> {
    let mut sink = sink_of(alloc, 1, call)?;
    let status = status_of_write(alloc, runtime, &mut sink)?;
    Ok(matches!(status, Status::Done) && sink.bytes() == FIRST_RUN.as_bytes())
}

#[test]
fn a_write_that_fails_at_any_call_leaves_what_was_written_before(
    rt: HostRuntime,
) -> Result<(), Fail> {
    for written in 0..115 {
        assert!(rt; is_write_fault(rt.alloc(), &rt, 1, written + 1, written as usize)?);
    }
    assert!(rt; is_written(rt.alloc(), &rt, 116)?);
    Ok(())
}

#[test]
fn a_write_that_fails_leaves_a_prefix(rt: HostRuntime) -> Result<(), Fail> {
    assert!(rt; is_write_fault(rt.alloc(), &rt, 3, 2, 3)?);
    Ok(())
}
