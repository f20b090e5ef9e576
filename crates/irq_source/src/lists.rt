//! The lists of a source's published and refused readings, while they are written.
ghost use Rattle.std.specs.Prelude.{◌≡◌, ◌+◌, ◌<◌, ◌≤◌, [], ◌++◌, ◌^◌, length, slice_index, vec_capacity, IfOk};
ghost use Rattle.push_core.specs.declared.point.Point.TheVariants as points;
ghost use Rattle.irq_source.specs.Account.{Listed};
ghost use Rattle.irq_source.specs.Rows.{tail_in, accepts, declines};

use ink_base::NoMemory;
use push_core::{Point, Row, Stage};
use std::alloc::Global;
use std::marker::Model;

/// A reading that was published: at which position of its queue, which reading it is, from 0, its value, and in which charge, from 0.
#[derive(Clone, Copy, Debug, PartialEq, Eq)]
pub struct Published {
    pub position: u32,
    pub reading: u32,
    pub value: u32,
    pub charge: u32,
}

/// A reading that was refused: which one it is, from 0, at which position of its queue, which was full then, and in which charge, from 0.
#[derive(Clone, Copy, Debug, PartialEq, Eq)]
pub struct Declined {
    pub reading: u32,
    pub position: u32,
    pub charge: u32,
}

/// The published and the refused readings of a source, in order. Contracts see them, and for how many there is room.
#[derive(Drop)]
pub(crate) struct Lists {
    accepted: Vec<Published>,
    refused: Vec<Declined>,
}

impl Model for Lists {
    ghost Value = { Listed };

    ghost view = { λ l. record { accepted = l.accepted.items; refused = l.refused.items; accepted_room = vec_capacity l.accepted; refused_room = vec_capacity l.refused } };
}

/// The tail that a row tries; 0 for a row that tries none.
fn tail_in(stage: Stage) -> u32
    ensures { result ≡ tail_in stage }
{
    match stage {
        Stage::LoadSlot { tail } | Stage::Publish { tail } => tail,
        _ => 0,
    }
}

impl Lists {
    /// Empty lists, with room for so many readings of each.
    pub fn new(alloc: Global, accepted: usize, refused: usize) -> Result<Lists, NoMemory>
        ensures accepted { IfOk result (λ l. l.accepted ≡ []) }
        ensures refused { IfOk result (λ l. l.refused ≡ []) }
        ensures accepted_room { IfOk result (λ l. accepted ≤ l.accepted_room) }
        ensures refused_room { IfOk result (λ l. refused ≤ l.refused_room) }
    {
        Ok(Lists {
            accepted: Vec::with_capacity(alloc, accepted)?,
            refused: Vec::with_capacity(alloc, refused)?,
        })
    }

    /// Adds the reading of a row whose access was at this point of the journal: to the published where it was pushed, to the refused where
    /// it was refused. It takes no memory.
    pub fn note(&mut self, readings: &[u32], row: Row, point: Point, charge: u32)
        requires pushed { point ≡ points.Pushed → (row.next < length readings.now) × (length self.old.accepted < self.old.accepted_room) }
        requires refused { point ≡ points.Refused → length self.old.refused < self.old.refused_room }
        ensures accepted { self.new.accepted ≡ self.old.accepted ++ accepts charge (tail_in row.stage) row.next (slice_index readings.now row.next) point }
        ensures refused { self.new.refused ≡ self.old.refused ++ declines charge (tail_in row.stage) row.next point }
        ensures accepted_room { self.new.accepted_room ≡ self.old.accepted_room }
        ensures refused_room { self.new.refused_room ≡ self.old.refused_room }
    {
        let reading = row.next;
        let position = tail_in(row.stage);
        match point {
            Point::Pushed => self.accepted.push_reserved(Published {
                position,
                reading,
                value: readings[reading as usize],
                charge,
            }),
            Point::Refused => self.refused.push_reserved(Declined {
                reading,
                position,
                charge,
            }),
            Point::Nothing | Point::Skipped => {}
        }
    }

    /// How many readings were published.
    pub fn published(&self) -> u32
        requires { length self.now.accepted < 2 ^ 32 }
        ensures { result ≡ length self.now.accepted }
    {
        self.accepted.len() as u32
    }

    /// The published and the refused readings.
    pub fn into_vecs(self) -> (Vec<Published>, Vec<Declined>)
        ensures { (result.0.items ≡ self.accepted) × (result.1.items ≡ self.refused) }
    {
        let Lists { accepted, refused } = self;
        (accepted, refused)
    }
}
