//! What the sources leave of their readings.
use irq_source::{Declined, Published};
use std::marker::Model;

/// The published and the refused readings of a source, each in order.
#[derive(Drop)]
pub struct SourceLists {
    accepted: Vec<Published>,
    refused: Vec<Declined>,
}

impl Model for SourceLists {
    ghost use Rattle.queue_lists.specs.Lists.{Lists};

    ghost Value = { Lists };

    ghost view = { λ l. record { accepted = l.accepted.items; refused = l.refused.items } };
}

impl SourceLists {
    ghost use Rattle.std.specs.Prelude.{◌≡◌};

    /// These lists.
    pub fn new(accepted: Vec<Published>, refused: Vec<Declined>) -> SourceLists
        ensures { result ≡ record { accepted = accepted.items; refused = refused.items } }
    {
        SourceLists { accepted, refused }
    }

    /// The published readings.
    pub fn accepted(&self) -> &[Published]
        ensures { result.now ≡ self.now.accepted }
    {
        &self.accepted
    }

    /// The refused readings.
    pub fn refused(&self) -> &[Declined]
        ensures { result.now ≡ self.now.refused }
    {
        &self.refused
    }
}
