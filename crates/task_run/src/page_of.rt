//! Which page an access of a task copies a word of.

ghost use Rattle.std.specs.Prelude.{◌≡◌, ◌<◌};
ghost use Rattle.std.specs.Option.{ForSome};
ghost use Rattle.prog_check.specs.Accepted.{IsAccepted};
ghost use Rattle.task_run.specs.Actions as actions;
ghost use Rattle.task_run.specs.kept.Copies as copies;
ghost use Rattle.task_run.specs.Fits.{FitsTask};

use crate::machine::TaskMachine;
use crate::phase::Phase;
use fram_words::Header;
use task_isa::Program;

impl TaskMachine {
    // The page that the access copies a word of; none exactly where it is no access of a copying.
    pub(crate) fn page_copied(&self, program: &Program) -> Option<u32>
        requires accepted { IsAccepted program.now }
        requires fits { FitsTask program.now self.now }
        ensures page { result ≡ copies.page_copied self.now.buffer (actions.action program.now self.now self.now.phase) }
        ensures few { ForSome result (λ page. page < 64) }
    {
        match self.page_written(program) {
            Some(page) if !self.buffer.is_dirty(page) => Some(page),
            _ => None,
        }
    }

    // The page that the phase writes to; none exactly where it isn't a write.
    fn page_written(&self, program: &Program) -> Option<u32>
        requires accepted { IsAccepted program.now }
        requires fits { FitsTask program.now self.now }
        ensures page { result ≡ copies.page_written (actions.action program.now self.now self.now.phase) }
        ensures few { ForSome result (λ page. page < 38) }
    {
        match self.phase {
            Phase::WriteFirst => Some(Header::First.page()),
            Phase::WriteOrigin => Some(Header::Origin.page()),
            Phase::WriteValue => Some(Header::Value.page()),
            Phase::WriteTaken => Some(Header::Taken(self.device()).page()),
            Phase::WriteDue { .. } => Some(Header::Due(self.device()).page()),
            Phase::Resume if self.is_late(program) => Some(Header::Next.page()),
            Phase::WriteState { index, .. } => Some((Header::WORDS + index) / 8),
            Phase::WriteCount { .. } => Some(Header::Outputs.page()),
            Phase::WriteWritten { sending, .. } => Some(Header::Written(sending.pipe).page()),
            Phase::WriteArmed { timer, .. } => Some(Header::Due(timer).page()),
            Phase::WritePeriod { timer, .. } => Some(Header::Period(timer).page()),
            Phase::WriteStopped { timer } => Some(Header::Due(timer).page()),
            Phase::WriteNext => Some(Header::Next.page()),
            Phase::WriteFinished => Some(Header::Finished.page()),
            Phase::WriteStamp => Some(Header::Stamp.page()),
            Phase::WriteTotal { .. } => Some(self.ending.total_word() / 8),
            _ => None,
        }
    }
}
