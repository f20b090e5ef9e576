//! What the user is told of a status.

ghost use Rattle.std.specs.Prelude.{◌≡◌, Some};
ghost use Rattle.ink_modes.specs.Exits.{exit_code, cause_name, complaint_of};

use ink_base::{Cause, JobFault, Status};
use std::fmt::{self, Display, Formatter, Write};

/// The line on standard error for a status that isn't `Done`.
#[derive(Clone, Copy)]
pub struct Complaint(pub Status);

impl Display for Complaint {
    ghost output = { λ c. Some (complaint_of c.0) };

    fn fmt<W: Write>(&self, f: &mut Formatter<W>) -> fmt::Result {
        match self.0 {
            Status::Done => Ok(()),
            Status::Usage => f.write_str(
                "usage: ink_board MODE [--journal] [--json] [--bounds] [--image] [--seed N]",
            ),
            Status::Refused(JobFault { line, cause }) => {
                let name = cause_name(cause);
                write!(f, "ink_board: line {line}: {name}")
            }
            Status::ReadFault => f.write_str("ink_board: read fault"),
            Status::WriteFault => f.write_str("ink_board: write fault"),
            Status::NoMemory => f.write_str("ink_board: no memory"),
            Status::TooLong => f.write_str("ink_board: job too long"),
        }
    }
}

// A cause's name.
fn cause_name(cause: Cause) -> &'static str
    ensures { result.now ≡ cause_name cause }
{
    match cause {
        Cause::BadByte => "BadByte",
        Cause::UnknownWord => "UnknownWord",
        Cause::BadNumber => "BadNumber",
        Cause::Duplicate => "Duplicate",
        Cause::Missing => "Missing",
        Cause::OverLimit => "OverLimit",
        Cause::BadTarget => "BadTarget",
        Cause::BadOwner => "BadOwner",
        Cause::BadSection => "BadSection",
        Cause::BadWord => "BadWord",
        Cause::WrongShape => "WrongShape",
        Cause::NotStanding => "NotStanding",
        Cause::Worn => "Worn",
    }
}

/// The exit status of the program.
pub fn exit_code(status: Status) -> u8
    ensures { result ≡ exit_code status }
{
    match status {
        Status::Done => 0,
        Status::Usage => 2,
        Status::Refused(_) => 3,
        Status::ReadFault => 4,
        Status::WriteFault => 5,
        Status::NoMemory => 6,
        Status::TooLong => 7,
    }
}
