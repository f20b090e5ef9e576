//! A source's place in its access table.
ghost use Rattle.std.specs.Prelude.{◌≡◌, ◌+◌, ◌≤◌, ◌<◌, ◌^◌, ◌/◌, ◌%◌, length, false};
ghost use Rattle.fram_words.specs.Held.{src_of};
ghost use Rattle.push_core.specs.Table.{first_row, row_at, publication, access_of, take_of, point_of, is_left, IsFew, IsPort, IsRowFor, IsAnswer};
ghost use Rattle.push_core.specs.declared.stage.Stage.TheVariants.{LoadSlots, LoadTail};

use crate::point::Point;
use crate::port::Port;
use crate::slot::{empty, full};
use crate::stage::Stage;
use crate::steps::{after_ack, after_boot_slot, after_publish, after_slot, is_full_at, shows_own};
use fram_words::{Access, read_src};
use ink_base::limits::READINGS;

/// A source's place in its access table: the number of its accepted events and its next reading, as far as it knows them (0 before
/// it has loaded SRC), and the row.
#[derive(Clone, Copy)]
pub struct Row {
    pub accepted: u32,
    pub next: u32,
    pub stage: Stage,
}

impl Row {
    /// The row in which a boot begins.
    pub fn first() -> Row
        ensures { result ≡ first_row }
    {
        Row {
            accepted: 0,
            next: 0,
            stage: Stage::LoadSrc,
        }
    }

    /// An access is left, with this number of readings.
    pub(crate) fn is_left(self, number: usize) -> bool
        ensures { result ≡ is_left number self }
    {
        match self.stage {
            Stage::LoadTail => (self.next as usize) < number,
            _ => true,
        }
    }

    /// The access of the row.
    pub(crate) fn access(self, port: Port, readings: &[u32]) -> Access
        requires few { IsFew readings.now }
        requires row { IsRowFor port (length readings.now) self }
        ensures { result ≡ access_of port readings.now self }
    {
        match self.stage {
            Stage::LoadSrc => Access::Load(port.src),
            Stage::LoadSlots { slot, .. } => Access::Load(port.queue.slots + slot as u32),
            Stage::LoadAck { .. } => Access::Load(port.ack),
            Stage::LoadTail => Access::Load(port.queue.tail),
            Stage::LoadSlot { tail } => Access::Load(port.slot_at(tail)),
            Stage::Publish { tail } => self.publication(port, tail, readings[self.next as usize]),
            Stage::MoveTail { tail } | Stage::HelpTail { tail } => port.moved_tail(tail),
            Stage::StoreSkip => port.stored_src(self.accepted, self.next + 1),
            Stage::StoreAccepted => port.stored_src(self.accepted + 1, self.next + 1),
        }
    }

    /// The exchange of the empty slot of a tail for a reading's word.
    fn publication(self, port: Port, tail: u32, value: u32) -> Access
        requires port { IsPort port }
        requires tail { tail < 2 ^ 21 }
        ensures { result ≡ publication port self.accepted tail value }
    {
        let count = (self.accepted % 64) as u8;
        Access::Exchange {
            addr: port.slot_at(tail),
            expect: empty(tail),
            new: full(tail, port.source, count, value),
        }
    }

    /// What the access adds to the journal, where it found this word.
    pub(crate) fn point(self, port: Port, number: usize, word: u64) -> Point
        requires { IsRowFor port number self }
        ensures { result ≡ point_of port.queue.places self.stage word }
    {
        match self.stage {
            Stage::LoadSlot { tail } if is_full_at(port.queue.places, tail, word) => Point::Refused,
            Stage::Publish { tail } if word == empty(tail) => Point::Pushed,
            Stage::StoreSkip => Point::Skipped,
            _ => Point::Nothing,
        }
    }

    /// The row that follows, where the access found this word.
    pub(crate) fn following(self, port: Port, number: usize, word: u64) -> Row
        requires few { number ≤ READINGS }
        requires row { IsRowFor port number self }
        requires range { IsAnswer number self.stage word }
        ensures { result ≡ take_of port number self word }
    {
        match self.stage {
            Stage::LoadSrc => Row::loaded(word),
            Stage::LoadSlots { slot, seen } => {
                let seen = seen || shows_own(port.source, self.accepted, word);
                self.with(after_boot_slot(port.queue.places, slot, seen))
            }
            Stage::LoadAck { seen } => {
                let is_left = (self.next as usize) < number;
                self.with(after_ack(self.accepted, is_left, seen, word))
            }
            Stage::LoadTail => self.with(Stage::LoadSlot { tail: word as u32 }),
            Stage::LoadSlot { tail } => self.with(after_slot(port.queue.places, tail, word)),
            Stage::Publish { tail } => self.with(after_publish(tail, word)),
            Stage::MoveTail { .. } => self.with(Stage::StoreAccepted),
            Stage::HelpTail { .. } => self.with(Stage::LoadTail),
            Stage::StoreSkip => self.settled(self.accepted),
            Stage::StoreAccepted => self.settled(self.accepted + 1),
        }
    }

    /// The row with the numbers of a loaded SRC.
    fn loaded(word: u64) -> Row
        ensures { result ≡ row_at (src_of word).accepted (src_of word).next (LoadSlots 0 false) }
    {
        let src = read_src(word);
        Row {
            accepted: src.accepted,
            next: src.next,
            stage: Stage::LoadSlots {
                slot: 0,
                seen: false,
            },
        }
    }

    /// Another stage with the same numbers.
    fn with(self, stage: Stage) -> Row
        ensures { result ≡ row_at self.accepted self.next stage }
    {
        Row { stage, ..self }
    }

    /// The row after SRC was stored with the next reading settled, and this number of accepted events.
    fn settled(self, accepted: u32) -> Row
        requires { self.next < READINGS }
        ensures { result ≡ row_at accepted (self.next + 1) LoadTail }
    {
        Row {
            accepted,
            next: self.next + 1,
            stage: Stage::LoadTail,
        }
    }
}
