//! A whole job and a whole text.

ghost use Rattle.std.specs.Prelude.{IfOk, IfErr, OnOk, OnErr};
ghost use Rattle.ink_io.specs.Whole.{GaveText, StopsRead, WroteText, WrotePart};

use crate::answers::{ReadAnswer, WriteFault};
use crate::sink::Sink;
use crate::source::Source;
use ink_base::limits::TEXT_BYTES;
use std::alloc::Global;

// The most bytes that one call of the source is asked for.
const PIECE: usize = 4096;

/// Reads all bytes to the end of the source.
///
/// `ReadFault` comes only where a call of the source failed, with at most as many bytes taken as a job may have.
/// `TooLong` comes where one byte more than that was taken. `NoMemory` comes where the job can't grow.
pub fn read_job<S: Source>(alloc: Global, source: &mut S) -> Result<Vec<u8>, ReadAnswer>
    // Ok with the bytes to the end, no more than a job may have, and no fault is passed over.
    ensures text { IfOk result (λ job. GaveText (S.state source.old) (S.state source.new) job.items) }

    // No fault is answered that didn't come, and too long is exactly one byte more than a job may have.
    ensures stops { IfErr result (StopsRead (S.state source.old) (S.state source.new)) }
{
    let mut job = Vec::new(alloc);
    let mut piece = [0u8; PIECE];
    while job.len() <= TEXT_BYTES {
        let room = (TEXT_BYTES + 1 - job.len()).min(PIECE);
        let Ok(count) = source.read(&mut piece[..room]) else {
            return Err(ReadAnswer::ReadFault);
        };
        if count == 0 {
            return Ok(job);
        }
        if job.extend_from_slice(&piece[..count]).is_err() {
            return Err(ReadAnswer::NoMemory);
        }
    }
    Err(ReadAnswer::TooLong)
}

/// Appends the text to what the sink holds. It takes no memory.
///
/// `WriteFault` comes only where a call of the sink failed. The sink then holds what it held and a part of the text
/// from its beginning.
pub fn write_all_text<K: Sink>(sink: &mut K, text: &[u8]) -> Result<(), WriteFault>
    ensures done { OnOk result (WroteText (K.state sink.old) (K.state sink.new) text.now) }
    ensures fault { OnErr result (WrotePart (K.state sink.old) (K.state sink.new) text.now) }
{
    let mut at = 0;
    while at < text.len() {
        match sink.write(&text[at..]) {
            Ok(count) => at += count,
            Err(_) => return Err(WriteFault),
        }
    }
    Ok(())
}
