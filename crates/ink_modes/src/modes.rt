//! The modes of the program. A new one is a file in `modes/`, and its lines here.

ghost use Rattle.std.specs.Prelude.{◌≡◌, ◌≤◌, length, IfOk};
ghost use Rattle.ink_image.specs.Whole.{Answers};
ghost use Rattle.ink_modes.specs.Form.{IsAllowed};
ghost use Rattle.ink_modes.specs.modes.{form_of, mode_named};
ghost use Rattle.ink_modes.specs.kept.Fits.{Fits};

mod audit;
mod plan;
mod print;
mod radio;
mod run;
mod soak;
mod station;
mod sweep;

use crate::command::Allowed;
use crate::given::{Given, job_alone};
use crate::making::Made;
use ink_base::limits::TEXT_BYTES;
use ink_base::{JobAnswer, NoMemory};
use ink_report::Flags;
use std::alloc::Global;
use std::thread::Threads;

/// What is done with a job.
#[derive(Clone, Copy, PartialEq, Eq)]
pub enum Mode {
    /// `run`: the board of the job on the source is run, and the text of the run is written.
    Run,
    /// `soak`: the board of the job that is generated from the seed is run, and the text of the run is written without its outputs.
    Soak,
    /// `sweep`: the board of the job on the source is run once for each number of turns of its first charge, cut behind them, and the numbers
    /// of the runs are written.
    Sweep,
    /// `print`: the canonical text of the program of the job on the source is written.
    Print,
    /// `audit`: the claim behind the job on the source is judged, and the verdict is written.
    Audit,
    /// `radio`: the board of the job on the source is run, the script behind the job is played over its outputs, and what the base has then is
    /// written.
    Radio,
    /// `station`: the boards of the jobs on the source are run at once, and the text of each run is written.
    Station,
    /// `plan`: a bound on what each task of the program of the job on the source may cost is written.
    Plan,
}

impl Mode {
    /// The mode of this name; none where no mode has it.
    pub fn named(word: &str) -> Option<Mode>
        ensures { result ≡ mode_named word.now }
    {
        match word {
            "run" => Some(Mode::Run),
            "soak" => Some(Mode::Soak),
            "sweep" => Some(Mode::Sweep),
            "print" => Some(Mode::Print),
            "audit" => Some(Mode::Audit),
            "radio" => Some(Mode::Radio),
            "station" => Some(Mode::Station),
            "plan" => Some(Mode::Plan),
            _ => None,
        }
    }

    /// The flags that it may have.
    pub fn allowed(self) -> Allowed
        ensures { result ≡ (form_of self).allowed }
    {
        match self {
            Mode::Run => run::ALLOWED,
            Mode::Soak => soak::ALLOWED,
            Mode::Sweep => sweep::ALLOWED,
            Mode::Print => print::ALLOWED,
            Mode::Audit => audit::ALLOWED,
            Mode::Radio => radio::ALLOWED,
            Mode::Station => station::ALLOWED,
            Mode::Plan => plan::ALLOWED,
        }
    }

    /// What a text gives to it, or the fault with which it refuses the text.
    pub fn given(self, alloc: Global, text: &[u8]) -> Result<Given, JobAnswer>
        requires { length text.now ≤ TEXT_BYTES }
        ensures given { Answers ((form_of self).gives text.now) result }
        ensures fits { IfOk result (Fits self) }
    {
        match self {
            Mode::Run | Mode::Soak | Mode::Print => job_alone(alloc, text),
            Mode::Sweep => sweep::given(alloc, text),
            Mode::Audit => audit::given(alloc, text),
            Mode::Radio => radio::given(alloc, text),
            Mode::Station => station::given(alloc, text),
            Mode::Plan => plan::given(alloc, text),
        }
    }

    /// What it makes of what it is given, and the text of that.
    pub fn make<R: Threads + Sync>(
        self,
        alloc: Global,
        runtime: &R,
        flags: Flags,
        given: Given,
    ) -> Result<Made, NoMemory>
        requires allowed { IsAllowed (form_of self).allowed flags }
        requires fits { Fits self given }
        ensures record { IfOk result (λ made. (form_of self).makes given made.record) }
        ensures text { IfOk result (λ made. made.text.items ≡ (form_of self).text flags given made.record) }
    {
        match self {
            Mode::Run => run::make(alloc, flags, given),
            Mode::Soak => soak::make(alloc, flags, given),
            Mode::Sweep => sweep::make(alloc, flags, given),
            Mode::Print => print::make(alloc, flags, given),
            Mode::Audit => audit::make(alloc, flags, given),
            Mode::Radio => radio::make(alloc, flags, given),
            Mode::Station => station::make(alloc, runtime, flags, given),
            Mode::Plan => plan::make(alloc, flags, given),
        }
    }
}
