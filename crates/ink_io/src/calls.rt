//! Which calls of a kind in memory fail.

ghost use Rattle.std.specs.Prelude.{◌≡◌, ◌||◌, not, is_err};
ghost use Rattle.ink_io.specs.Memory.{CallLog, no_calls, one_call, fails_next};

use crate::answers::Failed;
use std::marker::Model;

/// Numbers calls from 1 and fails those whose number is in a list.
#[derive(Drop)]
pub(crate) struct Calls {
    fail_at: Vec<u64>,
    made: u64,
    faults: u64,
}

impl Model for Calls {
    ghost Value = { CallLog };

    ghost view = { λ c. record { fail_at = c.fail_at.items; made = c.made; faults = c.faults } };
}

impl Calls {
    pub(crate) fn new(fail_at: Vec<u64>) -> Calls
        ensures { result ≡ no_calls fail_at.items }
    {
        Calls {
            fail_at,
            made: 0,
            faults: 0,
        }
    }

    /// Counts one call. It fails where its number is in the list, and where it can't be done.
    pub(crate) fn make(&mut self, can_be_done: bool) -> Result<(), Failed>
        ensures answer { is_err result ≡ (fails_next self.old || not can_be_done) }
        ensures log { self.new ≡ one_call self.old (fails_next self.old || not can_be_done) }
    {
        self.made = self.made.saturating_add(1);
        if self.fail_at.contains(&self.made) || !can_be_done {
            self.faults = self.faults.saturating_add(1);
            return Err(Failed);
        }
        Ok(())
    }
}
