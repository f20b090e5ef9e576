//! What a slot of a thread's queue tells.
ghost use Rattle.std.specs.Prelude.{◌≡◌};
ghost use Rattle.push_core.specs.Slots.{slot_in};
ghost use Rattle.priority_sched.specs.Scan as scan;

use ink_base::{Event, Origin};
use push_core::{Slot, read_slot};

/// The event of a full slot word of the position.
pub(crate) fn event_at(position: u32, word: u64) -> Option<Event>
    ensures { result ≡ scan.event_at position (slot_in word) }
{
    match read_slot(word) {
        Some(
            Slot::Full {
                position: found,
                source,
                count,
                value,
            },
        ) if found == position => Some(Event {
            origin: Origin::Source { source, count },
            value,
        }),
        _ => None,
    }
}
