//! What a source sees in a word that it loaded, and the stage that follows.
ghost use Rattle.std.specs.Prelude.{◌≡◌, ◌+◌, ◌*◌, ◌≤◌, ◌<◌, ◌%◌, ◌^◌, ◌==◌, ◌&&◌, ◌||◌, if◌then◌else◌};
ghost use Rattle.push_core.specs.Slots.{slot_in, empty_word};
ghost use Rattle.push_core.specs.Table as table;
ghost use Rattle.push_core.specs.declared.stage.Stage.TheVariants as stages;

use crate::slot::{Slot, empty, read_slot};
use crate::stage::Stage;
use ink_base::SourceId;
use ink_base::limits::READINGS;

/// The word holds an event of the source that comes after this many of its accepted ones.
pub(crate) fn shows_own(own: SourceId, accepted: u32, word: u64) -> bool
    ensures { result ≡ table.shows_own own accepted (slot_in word) }
{
    match read_slot(word) {
        Some(Slot::Full { source, count, .. }) => source.0 == own.0
            && count as u32 == accepted % 64,
        _ => false,
    }
}

/// The word holds the event one turn of the ring before the tail.
pub(crate) fn is_full_at(places: u8, tail: u32, word: u64) -> bool
    ensures { result ≡ table.is_full_at places tail (slot_in word) }
{
    match read_slot(word) {
        Some(Slot::Full { position, .. }) => position + places as u32 == tail,
        _ => false,
    }
}

/// After the load of a slot at boot: the next slot, or ACK.
pub(crate) fn after_boot_slot(places: u8, slot: u8, seen: bool) -> Stage
    requires { slot < places }
    ensures { result ≡ table.after_boot_slot places slot seen }
{
    if slot + 1 < places {
        Stage::LoadSlots {
            slot: slot + 1,
            seen,
        }
    } else {
        Stage::LoadAck { seen }
    }
}

/// After the load of ACK: whether the next reading, if one is left, was published before the boot.
pub(crate) fn after_ack(accepted: u32, is_left: bool, seen: bool, word: u64) -> Stage
    requires { accepted ≤ 2 * READINGS }
    ensures { result ≡ table.after_ack accepted is_left seen word }
{
    if is_left && (seen || word == (accepted as u64 + 1) % 64) {
        Stage::StoreAccepted
    } else {
        Stage::LoadTail
    }
}

/// After the load of the slot of a tail: free, full, or an old tail.
pub(crate) fn after_slot(places: u8, tail: u32, word: u64) -> Stage
    requires { tail < 2 ^ 21 }
    ensures { result ≡ table.after_slot places tail (slot_in word) }
{
    match read_slot(word) {
        Some(Slot::Empty { position }) if position == tail => Stage::Publish { tail },
        Some(Slot::Full { position, .. }) if position + places as u32 == tail => Stage::StoreSkip,
        _ => Stage::HelpTail { tail },
    }
}

/// After the exchange of the slot of a tail: made or lost.
pub(crate) fn after_publish(tail: u32, word: u64) -> Stage
    requires { tail < 2 ^ 21 }
    ensures { result ≡ table.after_publish tail word }
{
    if word == empty(tail) {
        Stage::MoveTail { tail }
    } else {
        Stage::HelpTail { tail }
    }
}
