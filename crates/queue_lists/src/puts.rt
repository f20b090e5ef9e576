//! The lists of a source, put into those of the record.
ghost use Rattle.std.specs.Prelude.{◌≡◌, ◌+◌, ◌≤◌, ◌++◌, length, map, vec_capacity};
ghost use Rattle.queue_lists.specs.Puts.{HavePositions, ArePut, refusal_of};

use ink_base::{Accept, SourceId};
use irq_source::{Declined, Published};
use live_account::Refusal;

/// Puts a source's published readings into the list of its queue's events, and their charges into the list beside it, each at its
/// position. All other places stay. It takes no memory.
pub fn put_events(
    source: SourceId,
    published: &[Published],
    accepted: &mut Vec<Accept>,
    charges: &mut Vec<u32>,
)
    requires events { HavePositions published.now (length accepted.old.items) }
    requires dates { HavePositions published.now (length charges.old.items) }
    ensures { ArePut source published.now (length published.now) accepted.old.items accepted.new.items charges.old.items charges.new.items }
{
    for reading in published {
        let position = reading.position as usize;
        accepted[position] = Accept {
            source,
            reading: reading.reading,
            value: reading.value,
        };
        charges[position] = reading.charge;
    }
}

/// Puts a source's refused readings behind those that are listed, in their order, each with its source. It takes no memory.
pub fn put_refusals(source: SourceId, declined: &[Declined], refused: &mut Vec<Refusal>)
    requires room { length refused.old.items + length declined.now ≤ vec_capacity refused.old }
    ensures listed { refused.new.items ≡ refused.old.items ++ map (refusal_of source) declined.now }
    ensures room { vec_capacity refused.new ≡ vec_capacity refused.old }
{
    for reading in declined {
        refused.push_reserved(Refusal {
            source,
            reading: reading.reading,
            position: reading.position,
            charge: reading.charge,
        });
    }
}
