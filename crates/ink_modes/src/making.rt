//! From what a command is given to what it makes.

ghost use Rattle.std.specs.Prelude.{◌≡◌, ◌≤◌, length, Ok, IfOk, IfErr};
ghost use Rattle.ink_modes.specs.Form.{FitsSeed, IsAllowed};
ghost use Rattle.ink_modes.specs.modes.{form_of};
ghost use Rattle.ink_modes.specs.Made.{OfText, Gave, Makes};
ghost use Rattle.ink_modes.specs.Answers.{StopsText, StopsReading, Stops};
ghost use Rattle.ink_modes.specs.kept.Fits.{Fits};

use crate::command::Command;
use crate::finish::Record;
use crate::given::Given;
use crate::modes::Mode;
use ink_base::limits::TEXT_BYTES;
use ink_base::{JobAnswer, NoMemory, Status};
use ink_io::{ReadAnswer, Source, read_job};
use power_trace::soak_job;
use std::alloc::Global;
use std::thread::Threads;

/// The record of a command, and its text.
#[derive(Drop)]
pub struct Made {
    pub record: Record,
    pub text: Vec<u8>,
}

/// What a command makes of what it is given.
pub fn make<R: Threads + Sync, S: Source>(
    alloc: Global,
    runtime: &R,
    command: Command,
    source: &mut S,
) -> Result<Made, Status>
    requires { IsAllowed (form_of command.mode).allowed command.flags }
    ensures made { IfOk result (λ made. Makes command (S.state source.old) (S.state source.new) made.record made.text.items) }
    ensures stops { IfErr result (Stops command.mode command.flags.seed (S.state source.old) (S.state source.new)) }
{
    let given = given_to(alloc, command.mode, command.flags.seed, source)?;
    match command.mode.make(alloc, runtime, command.flags, given) {
        Ok(made) => Ok(made),
        Err(NoMemory) => Err(Status::NoMemory),
    }
}

// The job that is generated from a seed; with no seed, what the text on the source gives to a mode.
fn given_to<S: Source>(
    alloc: Global,
    mode: Mode,
    seed: Option<u32>,
    source: &mut S,
) -> Result<Given, Status>
    requires { FitsSeed (form_of mode).allowed.seed seed }
    ensures given { IfOk result (Gave mode seed (S.state source.old) (S.state source.new)) }
    ensures fits { IfOk result (Fits mode) }
    ensures stops { IfErr result (Stops mode seed (S.state source.old) (S.state source.new)) }
{
    let Some(number) = seed else {
        return given_on(alloc, mode, source);
    };
    match soak_job(alloc, number) {
        Ok(job) => Ok(Given::Job(job)),
        Err(NoMemory) => Err(Status::NoMemory),
    }
}

// What the text on the source gives to a mode.
fn given_on<S: Source>(alloc: Global, mode: Mode, source: &mut S) -> Result<Given, Status>
    ensures given { IfOk result (λ given. OfText (S.state source.old) (S.state source.new) (λ text. (form_of mode).gives text (Ok given))) }
    ensures fits { IfOk result (Fits mode) }
    ensures stops { IfErr result (StopsReading mode (S.state source.old) (S.state source.new)) }
{
    match read_job(alloc, source) {
        Ok(text) => given_in(alloc, mode, text.as_slice()),
        Err(ReadAnswer::ReadFault) => Err(Status::ReadFault),
        Err(ReadAnswer::TooLong) => Err(Status::TooLong),
        Err(ReadAnswer::NoMemory) => Err(Status::NoMemory),
    }
}

// What a text gives to a mode. Refused where the mode refuses the text, with its fault.
fn given_in(alloc: Global, mode: Mode, text: &[u8]) -> Result<Given, Status>
    requires { length text.now ≤ TEXT_BYTES }
    ensures given { IfOk result (λ given. (form_of mode).gives text.now (Ok given)) }
    ensures fits { IfOk result (Fits mode) }
    ensures stops { IfErr result (StopsText mode text.now) }
{
    match mode.given(alloc, text) {
        Ok(given) => Ok(given),
        Err(JobAnswer::Fault(fault)) => Err(Status::Refused(fault)),
        Err(JobAnswer::NoMemory) => Err(Status::NoMemory),
    }
}
