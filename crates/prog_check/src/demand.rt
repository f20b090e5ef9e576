//! One condition of a program.

ghost use Rattle.std.specs.Prelude.{◌≡◌};
ghost use Rattle.std.specs.Result.{result_err};
ghost use Rattle.prog_check.specs.Faults.{unless};

use ink_base::{Cause, JobFault};

/// The fault of this line, unless the condition holds.
pub fn demand(holds: bool, line: u32, cause: Cause) -> Result<(), JobFault>
    ensures { result_err result ≡ unless holds line cause }
{
    if holds {
        Ok(())
    } else {
        Err(JobFault { line, cause })
    }
}
