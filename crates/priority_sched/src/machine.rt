//! The scan of the kernel as a machine.
ghost use Rattle.std.specs.Prelude.{◌≡◌, ℕ};
ghost use Rattle.std.specs.Option.{ForSome};
ghost use Rattle.task_isa.specs.declared.program.Program.{Program};
ghost use Rattle.fram_words.specs.Places.{Load};
ghost use Rattle.fram_words.specs.Steps.{place_of};
ghost use Rattle.prog_check.specs.Accepted.{IsAccepted};
ghost use Rattle.ink_layout.specs.Addresses.{at_layout};
ghost use Rattle.ink_layout.specs.Shape.{IsOnBoard};
ghost use Rattle.never_cut.specs.Ranges.{IsAnswerTo};
ghost use Rattle.never_cut.specs.Wanted.{IsSlotWanted};
ghost use Rattle.priority_sched.specs.Reached.{scan_loaded, IsScanOf, IsResultOf};
ghost use Rattle.priority_sched.specs.Scan.{scan_begun, scan_wants, scan_takes, scan_point, scan_result, scan_slot, IsScan, IsScanWord};

use crate::event::event_at;
use crate::places::{item_of, writer_of};
use crate::scan_at::ScanAt;
use crate::scanned::Scanned;
use fram_words::{Access, Header, Place};
use ink_base::ThreadId;
use ink_layout::{KernelPoint, Plan, SlotAt, slot_of};
use task_isa::Program;
use thread_state::header_in;

/// The kernel between two services: the thread at hand, the scan's time in ticks once the clock was loaded, and the row of the access
/// table.
#[derive(Clone, Copy)]
pub struct ScanMachine {
    pub thread: ThreadId,
    pub time: u64,
    pub at: ScanAt,
}

impl ScanMachine {
    /// A scan before its first access, which can be made on the board of any accepted program.
    pub fn begin() -> ScanMachine
        ensures begun { result ≡ scan_begun }
        ensures reached { (program : Program) → IsAccepted program → IsScanOf program result }
    {
        ScanMachine {
            thread: ThreadId(0),
            time: 0,
            at: ScanAt::Clock,
        }
    }

    /// Goes back to before its first access.
    pub fn begin_again(&mut self)
        ensures { self.new ≡ scan_begun }
    {
        self.thread = ThreadId(0);
        self.time = 0;
        self.at = ScanAt::Clock;
    }

    /// What the scan found; none exactly where it isn't over. From words in their ranges the pick is one that a task's machine can serve.
    pub fn result(&self) -> Option<Scanned>
        ensures found { result ≡ scan_result self.now.at }
        ensures pick { (program : Program) → IsScanOf program self.now → ForSome result (λ found. IsResultOf program found) }
    {
        match self.at {
            ScanAt::Picked { pick } => Some(Scanned::Pick(pick)),
            ScanAt::Quiet => Some(Scanned::Quiet),
            _ => None,
        }
    }

    /// The next access, at the address that the plan's layout gives its place. Once the scan is over there is none to make, and the
    /// answer means nothing. A word in the range of the place can be taken.
    pub fn want(&self, plan: &Plan) -> Access
        requires { IsScan plan.now.accepted self.now }
        ensures access { result ≡ at_layout plan.now.layout (scan_wants plan.now.accepted self.now.thread.0 self.now.at) }
        ensures range { (word : ℕ)
            → IsAnswerTo plan.now.accepted (scan_loaded self.now.time self.now.at) (scan_wants plan.now.accepted self.now.thread.0 self.now.at) word
            → IsScanWord plan.now.accepted self.now.at word }
    {
        Access::Load(plan.address(self.place(plan.program())))
    }

    // The place of the access of the row.
    #[inline(always)]
    fn place(&self, program: &Program) -> Place
        requires accepted { IsAccepted program.now }
        requires row { IsScan program.now self.now }
        ensures load { Load (place_of result) ≡ scan_wants program.now self.now.thread.0 self.now.at }
        ensures there { IsOnBoard program.now (place_of result) }
    {
        let thread = self.thread;
        match self.at {
            ScanAt::Commit => Place::Commit { thread },
            ScanAt::Running { commit_word } => header_in(thread, commit_word, Header::Next),
            ScanAt::Finished { commit_word, .. } => header_in(
                thread,
                commit_word,
                Header::Finished,
            ),
            ScanAt::Origin { chain } => header_in(thread, chain.commit_word, Header::Origin),
            ScanAt::Value { chain, .. } => header_in(thread, chain.commit_word, Header::Value),
            ScanAt::First { chain, .. } => header_in(thread, chain.commit_word, Header::First),
            ScanAt::Slot { position, .. } => slot_of(program, thread, position),
            ScanAt::Taken { idle, pipe } => header_in(
                thread,
                idle.commit_word,
                Header::Taken(pipe.0 as u32),
            ),
            ScanAt::Writer { waiting } => Place::Commit {
                thread: writer_of(program, waiting.pipe),
            },
            ScanAt::Written {
                waiting,
                commit_word,
            } => header_in(
                writer_of(program, waiting.pipe),
                commit_word,
                Header::Written(waiting.pipe.0 as u32),
            ),
            ScanAt::Item { waiting } => item_of(program, waiting.pipe, waiting.taken),
            ScanAt::Timer { idle, timer } => header_in(
                thread,
                idle.commit_word,
                Header::Due(timer.0 as u32),
            ),
            ScanAt::Clock | ScanAt::Picked { .. } | ScanAt::Quiet => Place::Clock,
        }
    }

    /// Takes the word that the wanted access found, goes on to the row that follows, and answers what the access stands for. A scan that
    /// is over stays as it is. Where every word was in the range of its place, so are the registers.
    pub fn take(&mut self, plan: &Plan, word: u64) -> KernelPoint
        requires row { IsScan plan.now.accepted self.old }
        requires range { IsScanWord plan.now.accepted self.old.at word }
        ensures taken { self.new ≡ scan_takes plan.now.accepted self.old.thread self.old.time self.old.at word }
        ensures row { IsScan plan.now.accepted self.new }
        ensures reached { IsScanOf plan.now.accepted self.old
            → IsAnswerTo plan.now.accepted (scan_loaded self.old.time self.old.at) (scan_wants plan.now.accepted self.old.thread.0 self.old.at) word
            → IsScanOf plan.now.accepted self.new }
        ensures point { result ≡ scan_point self.old.thread self.old.at word }
    {
        let _program = plan.program();
        let point = self.point(word);
        self.follow(plan, word);
        point
    }

    /// The queue and the position of the event that the wanted access looks for; none exactly where it loads no slot.
    pub fn slot_wanted(&self, plan: &Plan) -> Option<SlotAt>
        requires { IsScan plan.now.accepted self.now }
        ensures slot { result ≡ scan_slot self.now.thread self.now.at }
        ensures own { IsSlotWanted plan.now.accepted (scan_wants plan.now.accepted self.now.thread.0 self.now.at) result }
    {
        let _plan = plan;
        match self.at {
            ScanAt::Slot { position, .. } => Some(SlotAt {
                thread: self.thread,
                position,
            }),
            _ => None,
        }
    }

    /// What the wanted access stands for, where it found this word: what `take` answers.
    #[inline(always)]
    pub fn point(&self, word: u64) -> KernelPoint
        ensures { result ≡ scan_point self.now.thread self.now.at word }
    {
        match self.at {
            ScanAt::Clock => KernelPoint::Scan,
            ScanAt::Slot { position, .. } => match event_at(position, word) {
                None => KernelPoint::Look(self.thread),
                Some(_) => KernelPoint::Nothing,
            },
            _ => KernelPoint::Nothing,
        }
    }
}
