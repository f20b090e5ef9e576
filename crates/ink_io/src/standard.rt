//! Readers and writers of std. What a file or terminal holds isn't told.

ghost use Rattle.std.specs.Prelude.{◌≡◌};

use crate::answers::Failed;
use crate::sink::Sink;
use crate::source::Source;
use std::io::{Read, Write};

/// A reader of std, with a count of its calls that failed and of those that didn't.
#[derive(Drop)]
pub struct StdSource<R: Read> {
    inner: R,
    faults: u64,
    reads: u64,
}

impl<R: Read> StdSource<R> {
    /// The bytes that the reader gives from here on.
    pub fn new(reader: R) -> StdSource<R>
        ensures { ⟦<StdSource<R> as Source>⟧.state result ≡ record { left = R.remaining reader; faults = 0; reads = 0 } }
    {
        StdSource {
            inner: reader,
            faults: 0,
            reads: 0,
        }
    }
}

impl<R: Read> Source for StdSource<R> {
    ghost state = { λ s. record { left = R.remaining s.inner; faults = s.faults; reads = s.reads } };

    fn read(&mut self, into: &mut [u8]) -> Result<usize, Failed> {
        match self.inner.read(into) {
            Ok(count) => {
                self.reads = self.reads.saturating_add(1);
                Ok(count)
            }
            Err(_) => {
                self.faults = self.faults.saturating_add(1);
                Err(Failed)
            }
        }
    }
}

/// A writer of std, with a count of its calls that failed.
#[derive(Drop)]
pub struct StdSink<W: Write> {
    inner: W,
    faults: u64,
}

impl<W: Write> StdSink<W> {
    /// Appends to what the writer holds.
    pub fn new(writer: W) -> StdSink<W>
        ensures { ⟦<StdSink<W> as Sink>⟧.state result ≡ record { held = W.contents writer; faults = 0 } }
    {
        StdSink {
            inner: writer,
            faults: 0,
        }
    }
}

impl<W: Write> Sink for StdSink<W> {
    ghost state = { λ s. record { held = W.contents s.inner; faults = s.faults } };

    // A writer that takes nothing of a piece that isn't empty has failed too.
    fn write(&mut self, piece: &[u8]) -> Result<usize, Failed> {
        match self.inner.write(piece) {
            Ok(count) if count > 0 || piece.is_empty() => Ok(count),
            _ => {
                self.faults = self.faults.saturating_add(1);
                Err(Failed)
            }
        }
    }
}
