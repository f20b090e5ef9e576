//! `print`: the canonical text of the program of the job on the source is written.

ghost use Rattle.std.specs.Prelude.{◌≡◌, IfOk};
ghost use Rattle.ink_modes.specs.Given.{IsAlone};
ghost use Rattle.ink_modes.specs.modes.Print.{Makes, text};

use crate::command::Allowed;
use crate::finish::Record;
use crate::given::Given;
use crate::making::Made;
use ink_base::NoMemory;
use ink_report::Flags;
use program_text::print_program;
use std::alloc::Global;

/// It has no flags.
pub const ALLOWED: Allowed = Allowed::NONE;

/// The program of a job, and its canonical text.
pub fn make(alloc: Global, _flags: Flags, given: Given) -> Result<Made, NoMemory>
    requires { IsAlone given }
    ensures record { IfOk result (λ made. Makes given made.record) }
    ensures text { IfOk result (λ made. made.text.items ≡ text _flags given made.record) }
{
    let (program, _readings, _charges, _start) = given.into_job().into_parts();
    let text = print_program(alloc, &program)?;
    Ok(Made {
        record: Record::Print(program),
        text,
    })
}
