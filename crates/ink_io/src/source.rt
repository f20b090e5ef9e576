//! What gives bytes.

ghost use Rattle.std.specs.Io.{ReadsAtMost};
ghost use Rattle.std.specs.Io.KnownBytes.{ReadConsumes};
ghost use Rattle.ink_io.specs.Counts.{HasCause, CountsOk};
ghost use Rattle.ink_io.specs.States.{SourceState};

use crate::answers::Failed;

/// Gives the bytes of an input in order, a piece at each call.
pub trait Source {
    /// The bytes that are left, how many calls have failed, and how many were answered with `Ok`. A count never falls, and stays at its
    /// type's last value.
    ghost state: { Self → SourceState };

    /// Puts the next bytes at the front of `into` and answers how many they are.
    ///
    /// 0 for a piece that isn't empty is the end of the input. `Failed` comes only where the count of faults rose,
    /// and takes nothing.
    fn read(&mut self, into: &mut [u8]) -> Result<usize, Failed>
        ensures bound { ReadsAtMost result into.new }
        ensures bytes { ReadConsumes (state self.old).left (state self.new).left result into.new }
        ensures cause { HasCause (state self.old).faults (state self.new).faults result }
        ensures counted { CountsOk (state self.old).reads (state self.new).reads result };
}
