//! A source and a sink that never fail.

ghost use Rattle.std.specs.Prelude.{◌≡◌, Some, None, Ok, length};
ghost use Rattle.std.specs.Io.{WritesAtMost};
ghost use Rattle.std.specs.Io.KnownBytes.{WriteAppends};
ghost use Rattle.ink_io.specs.Counts.{HasCause};
ghost use Rattle.ink_io.specs.Bytes.{TakesSome};

use crate::answers::Failed;
use crate::sink::Sink;
use crate::source::Source;
use crate::unread::Unread;

/// Bytes in memory, whose reads never fail.
#[derive(Drop)]
pub struct SureSource {
    unread: Unread,
    reads: u64,
}

impl SureSource {
    /// Gives these bytes in order.
    pub fn new(bytes: Vec<u8>) -> SureSource
        ensures { ⟦<SureSource as Source>⟧.state result ≡ record { left = Some bytes.items; faults = 0; reads = 0 } }
    {
        SureSource {
            unread: Unread::new(bytes),
            reads: 0,
        }
    }
}

impl Source for SureSource {
    ghost state = { λ s. record { left = Some s.unread; faults = 0; reads = s.reads } };

    fn read(&mut self, into: &mut [u8]) -> Result<usize, Failed> {
        self.reads = self.reads.saturating_add(1);
        Ok(self.unread.give(into, usize::MAX))
    }
}

/// Takes each piece whole, keeps none of it and tells no bytes.
#[derive(Drop)]
pub struct SureSink;

impl SureSink {
    /// A sink that keeps nothing.
    pub fn new() -> SureSink
        ensures { ⟦<SureSink as Sink>⟧.state result ≡ record { held = None; faults = 0 } }
    {
        SureSink
    }
}

impl Sink for SureSink {
    ghost state = { λ _. record { held = None; faults = 0 } };

    fn write(&mut self, piece: &[u8]) -> Result<usize, Failed>
        ensures whole { result ≡ Ok (length piece.now) }
        ensures bound { WritesAtMost result piece.now }
        ensures some { TakesSome result piece.now }
        ensures bytes { WriteAppends None None result piece.now }
        ensures cause { HasCause 0 0 result }
    {
        Ok(piece.len())
    }
}
