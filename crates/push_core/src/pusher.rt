//! A source as a machine.
ghost use Rattle.std.specs.Prelude.{◌≡◌, ◌↔◌, ℕ, length, IsNone};
ghost use Rattle.push_core.specs.declared.point.Point.TheVariants as point;
ghost use Rattle.push_core.specs.Table.{first_row, IsPort, IsFew, IsRowFor, IsLeft, IsSettled, IsAnswer, FindsOlder, want_of, take_of, point_of, phase_of};

use crate::phase::Phase;
use crate::point::Point;
use crate::port::Port;
use crate::row::Row;
use crate::stage::Stage;
use fram_words::Access;

/// A source with its port, at a row of its access table. All calls on one source are given equal readings: its row fits their number.
#[derive(Clone, Copy)]
pub struct Pusher {
    pub port: Port,
    pub row: Row,
}

impl Pusher {
    /// A source before its first access.
    pub fn boot(port: Port) -> Pusher
        requires { IsPort port }
        ensures port { result.port ≡ port }
        ensures row { result.row ≡ first_row }
        ensures fits { (number : ℕ) → IsRowFor port number result.row }
    {
        Pusher {
            port,
            row: Row::first(),
        }
    }

    /// The next access, by the address and the words of the port's board; none exactly where the boot is over and all readings are
    /// settled.
    pub fn want(&self, readings: &[u32]) -> Option<Access>
        requires few { IsFew readings.now }
        requires row { IsRowFor self.now.port (length readings.now) self.now.row }
        ensures access { result ≡ want_of self.now.port readings.now self.now.row }
        ensures settled { IsNone result ↔ IsSettled (length readings.now) self.now.row }
    {
        if self.row.is_left(readings.len()) {
            Some(self.row.access(self.port, readings))
        } else {
            None
        }
    }

    /// Takes the word that the wanted access found, goes on to the row that follows, and answers what the access adds to the journal.
    /// `Refused` comes only at the load of the slot of a tail, where the word is a full one of the position a turn of the ring before.
    pub fn take(&mut self, readings: &[u32], word: u64) -> Point
        requires few { IsFew readings.now }
        requires row { IsRowFor self.old.port (length readings.now) self.old.row }
        requires left { IsLeft (length readings.now) self.old.row }
        requires range { IsAnswer (length readings.now) self.old.row.stage word }

        ensures port { self.new.port ≡ self.old.port }
        ensures row { self.new.row ≡ take_of self.old.port (length readings.now) self.old.row word }
        ensures fits { IsRowFor self.new.port (length readings.now) self.new.row }
        ensures point { result ≡ point_of self.old.port.queue.places self.old.row.stage word }
        ensures refused { result ≡ point.Refused → FindsOlder self.old.port.queue.places self.old.row.stage word }
    {
        let point = self.row.point(self.port, readings.len(), word);
        self.row = self.row.following(self.port, readings.len(), word);
        point
    }

    /// The row of the table at which the source stands: it tells the kind of the wanted access.
    pub fn row(&self) -> Row
        ensures { result ≡ self.now.row }
    {
        self.row
    }

    /// How far the source is with its next reading.
    pub fn phase(&self) -> Phase
        ensures { result ≡ phase_of self.now.row.stage }
    {
        match self.row.stage {
            Stage::LoadSrc | Stage::LoadSlots { .. } | Stage::LoadAck { .. } => Phase::Boot,
            Stage::MoveTail { .. } | Stage::StoreAccepted => Phase::Published,
            Stage::StoreSkip => Phase::Refused,
            _ => Phase::Ready,
        }
    }

    /// The next reading, by its number from 0; 0 before SRC is loaded.
    pub fn next_reading(&self) -> u32
        ensures { result ≡ self.now.row.next }
    {
        self.row.next
    }

    /// The number of accepted events that the source knows; 0 before SRC is loaded.
    pub fn accepted(&self) -> u32
        ensures { result ≡ self.now.row.accepted }
    {
        self.row.accepted
    }
}
