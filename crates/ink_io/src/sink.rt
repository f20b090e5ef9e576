//! What takes bytes.

ghost use Rattle.std.specs.Io.{WritesAtMost};
ghost use Rattle.std.specs.Io.KnownBytes.{WriteAppends};
ghost use Rattle.ink_io.specs.Counts.{HasCause};
ghost use Rattle.ink_io.specs.Bytes.{TakesSome};
ghost use Rattle.ink_io.specs.States.{SinkState};

use crate::answers::Failed;

/// Takes the bytes of an output in order, a piece at each call.
pub trait Sink {
    /// The bytes that it holds, and how many calls have failed. A count never falls, and stays at its type's last value.
    ghost state: { Self → SinkState };

    /// Appends the first bytes of the piece and answers how many they are, at least 1 of a piece that isn't empty.
    ///
    /// `Failed` comes only where the count of faults rose, and appends nothing.
    fn write(&mut self, piece: &[u8]) -> Result<usize, Failed>
        ensures bound { WritesAtMost result piece.now }
        ensures some { TakesSome result piece.now }
        ensures bytes { WriteAppends (state self.old).held (state self.new).held result piece.now }
        ensures cause { HasCause (state self.old).faults (state self.new).faults result };
}
