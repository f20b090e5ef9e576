//! The boot of the kernel as a machine.
ghost use Rattle.std.specs.Prelude.{◌≡◌, ℕ, ◌<◌, ◌^◌, length};
ghost use Rattle.fram_words.specs.Places as places;
ghost use Rattle.prog_check.specs.Accepted.{IsAccepted};
ghost use Rattle.push_core.specs.Slots.{slot_in};
ghost use Rattle.ink_layout.specs.Shape.{IsOnBoard};
ghost use Rattle.fram_words.specs.Steps.{access_of};
ghost use Rattle.ink_layout.specs.Addresses.{at_layout};
ghost use Rattle.never_cut.specs.Ranges.{nothing_loaded, IsAnswerTo};
ghost use Rattle.never_cut.specs.Wanted.{IsSlotWanted};
ghost use Rattle.task_isa.specs.declared.program.Program.{Program};
ghost use Rattle.reboot.specs.Boot.{boot_begun, boot_wants, boot_takes, boot_next, after_slot, boot_point, boot_stamp, boot_slot, IsBoot, IsBootWord, IsOfSource};

use crate::boot_at::BootAt;
use fram_words::{Access, Header, Place, Step};
use ink_base::ThreadId;
use ink_layout::{KernelPoint, Plan, SlotAt, slot_of};
use push_core::{Slot, empty, read_slot};
use task_isa::Program;
use thread_state::header_in;

/// The kernel at the start of a charge: the thread at hand, the greatest stamp that it has loaded, and the row of the access table.
#[derive(Clone, Copy)]
pub struct BootMachine {
    pub thread: ThreadId,
    pub stamp: u64,
    pub at: BootAt,
}

impl BootMachine {
    /// A boot before its first access, which can be made on the board of any accepted program.
    pub fn begin() -> BootMachine
        ensures begun { result ≡ boot_begun }
        ensures row { (program : Program) → IsAccepted program → IsBoot program result }
    {
        BootMachine {
            thread: ThreadId(0),
            stamp: 0,
            at: BootAt::Commit,
        }
    }

    /// The greatest stamp of all threads, which is the number of commits; none exactly where the boot isn't over.
    pub fn stamp(&self) -> Option<u64>
        ensures { result ≡ boot_stamp self.now }
    {
        match self.at {
            BootAt::Over => Some(self.stamp),
            _ => None,
        }
    }

    /// The next access, at the address that the plan's layout gives its place. Once the boot is over there is none to make, and the
    /// answer means nothing. A word in the range of the place can be taken.
    pub fn want(&self, plan: &Plan) -> Access
        requires { IsBoot plan.now.accepted self.now }
        ensures access { result ≡ at_layout plan.now.layout (boot_wants plan.now.accepted self.now.thread.0 self.now.at) }
        ensures range { (word : ℕ) → IsAnswerTo plan.now.accepted nothing_loaded (boot_wants plan.now.accepted self.now.thread.0 self.now.at) word
            → IsBootWord plan.now.accepted self.now.at word }
    {
        plan.access(self.wants(plan.program()))
    }

    // The access of the row, to its place.
    #[inline(always)]
    fn wants(self, program: &Program) -> Step
        requires accepted { IsAccepted program.now }
        requires row { IsBoot program.now self }
        ensures step { access_of result ≡ boot_wants program.now self.thread.0 self.at }
        ensures there { IsOnBoard program.now (places.place_of (access_of result)) }
    {
        let thread = self.thread;
        match self.at {
            BootAt::Commit | BootAt::Over => Step::Load(Place::Commit { thread }),
            BootAt::Stamp { commit_word } => Step::Load(header_in(
                thread,
                commit_word,
                Header::Stamp,
            )),
            BootAt::Finished { commit_word } => Step::Load(header_in(
                thread,
                commit_word,
                Header::Finished,
            )),
            BootAt::Slot { position } => Step::Load(slot_of(program, thread, position)),
            BootAt::Ack { source, count, .. } => Step::Store(
                Place::Ack { source },
                (count as u64 + 1) % 64,
            ),
            BootAt::Empty { position } => Step::Store(
                slot_of(program, thread, position),
                empty(position + program.threads.as_slice()[thread.0 as usize].queue as u32),
            ),
        }
    }

    /// Takes the word that the wanted access found, goes on to the row that follows, and answers what the access stands for. A boot that
    /// is over stays as it is.
    pub fn take(&mut self, plan: &Plan, word: u64) -> KernelPoint
        requires row { IsBoot plan.now.accepted self.old }
        requires range { IsBootWord plan.now.accepted self.old.at word }
        ensures taken { self.new ≡ boot_takes plan.now.accepted self.old.thread self.old.stamp self.old.at word }
        ensures row { IsBoot plan.now.accepted self.new }
        ensures point { result ≡ boot_point self.old.thread self.old.at }
    {
        let point = self.point();
        *self = self.following(plan, word);
        point
    }

    /// The queue and the position of the event that the wanted access looks for, acknowledges or releases; none exactly where it is
    /// another access.
    pub fn slot_wanted(&self, plan: &Plan) -> Option<SlotAt>
        requires { IsBoot plan.now.accepted self.now }
        ensures slot { result ≡ boot_slot self.now.thread self.now.at }
        ensures own { IsSlotWanted plan.now.accepted (boot_wants plan.now.accepted self.now.thread.0 self.now.at) result }
    {
        let _plan = plan;
        match self.at {
            BootAt::Slot { position } | BootAt::Ack { position, .. } | BootAt::Empty { position } =>
                Some(SlotAt {
                    thread: self.thread,
                    position,
                }),
            _ => None,
        }
    }

    /// What the wanted access stands for, whatever word it finds: what `take` answers.
    #[inline(always)]
    pub fn point(&self) -> KernelPoint
        ensures { result ≡ boot_point self.now.thread self.now.at }
    {
        match self.at {
            BootAt::Empty { .. } => KernelPoint::Release(self.thread),
            _ => KernelPoint::Nothing,
        }
    }

    /// The registers after the access, which found this word.
    fn following(self, plan: &Plan, word: u64) -> BootMachine
        requires row { IsBoot plan.now.accepted self }
        requires range { IsBootWord plan.now.accepted self.at word }
        ensures taken { result ≡ boot_takes plan.now.accepted self.thread self.stamp self.at word }
        ensures row { IsBoot plan.now.accepted result }
    {
        match self.at {
            BootAt::Commit => self.with(BootAt::Stamp { commit_word: word }),
            BootAt::Stamp { commit_word } => BootMachine {
                stamp: self.stamp.max(word),
                at: BootAt::Finished { commit_word },
                ..self
            },
            BootAt::Finished { .. } if word == 0 => self.next(plan),
            BootAt::Finished { .. } => self.with(BootAt::Slot {
                position: (word - 1) as u32,
            }),
            BootAt::Slot { position } => self.after_slot(plan, position, word),
            BootAt::Ack { position, .. } => self.with(BootAt::Empty { position }),
            BootAt::Empty { .. } => self.next(plan),
            BootAt::Over => self,
        }
    }

    /// Another row with the same thread and stamp.
    fn with(self, at: BootAt) -> BootMachine
        ensures { result ≡ record self { at = at } }
    {
        BootMachine { at, ..self }
    }

    /// The first row of the next thread, or the end.
    fn next(self, plan: &Plan) -> BootMachine
        requires known { self.thread.0 < length plan.now.accepted.threads }
        ensures next { result ≡ boot_next plan.now.accepted self.thread self.stamp }
        ensures row { IsBoot plan.now.accepted result }
    {
        if self.thread.0 as usize + 1 < plan.program().threads.len() {
            BootMachine {
                thread: ThreadId(self.thread.0 + 1),
                at: BootAt::Commit,
                ..self
            }
        } else {
            self.with(BootAt::Over)
        }
    }

    /// After the load of a slot: an event of the position is acknowledged.
    fn after_slot(self, plan: &Plan, position: u32, word: u64) -> BootMachine
        requires known { self.thread.0 < length plan.now.accepted.threads }
        requires position { position < 2 ^ 20 }
        requires range { IsOfSource plan.now.accepted (slot_in word) }
        ensures taken { result ≡ after_slot plan.now.accepted self.thread self.stamp position (slot_in word) }
        ensures row { IsBoot plan.now.accepted result }
    {
        match read_slot(word) {
            Some(
                Slot::Full {
                    position: found,
                    source,
                    count,
                    ..
                },
            ) if found == position => self.with(BootAt::Ack {
                position,
                source,
                count,
            }),
            _ => self.next(plan),
        }
    }
}
