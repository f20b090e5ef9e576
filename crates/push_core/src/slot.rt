//! The words of a queue's slots.
ghost use Rattle.std.specs.Prelude.{◌≡◌, ◌≢◌, ◌<◌, ◌^◌, IfSome, IfNone};
ghost use Rattle.push_core.specs.declared.slot.Slot.{Slot};
ghost use Rattle.push_core.specs.Slots.{full_word, empty_word, slot_in, full_in, word_of, FitsSlot, IsSlot};

use ink_base::SourceId;

/// What a slot's word stands for. A position counts places over all turns of the queue's ring, from 0.
#[derive(Clone, Copy, Debug, PartialEq, Eq)]
pub enum Slot {
    /// The slot is free for the event of this position.
    Empty {
        position: u32,
    },
    /// The slot holds the event of this position: its source, the number of the source's accepted events before it modulo 64, and
    /// its value.
    Full {
        position: u32,
        source: SourceId,
        count: u8,
        value: u32,
    },
}

/// The word of an event that stands at this position: the value in bits 0 to 31, the count in 32 to 37, the source in 38 to 41, the
/// position in 42 to 62, and bit 63 set.
pub fn full(position: u32, source: SourceId, count: u8, value: u32) -> u64
    requires { FitsSlot position source count }
    ensures { result ≡ full_word position source count value }
{
    (1u64 << 63)
        + ((position as u64) << 42)
        + ((source.0 as u64) << 38)
        + ((count as u64) << 32)
        + value as u64
}

/// The word of a slot that is free for this position: the position in bits 42 to 62, and zeros elsewhere.
pub fn empty(position: u32) -> u64
    requires { position < 2 ^ 21 }
    ensures { result ≡ empty_word position }
{
    (position as u64) << 42
}

/// The slot that has this word; none exactly where neither `full` nor `empty` gives it.
pub fn read_slot(word: u64) -> Option<Slot>
    ensures computed { result ≡ slot_in word }
    ensures read { IfSome result (λ slot. IsSlot slot × (word_of slot ≡ word)) }
    ensures none { IfNone result ((slot : Slot) → IsSlot slot → word_of slot ≢ word) }
{
    if word >> 63 == 1 {
        Some(read_full(word))
    } else if word % (1 << 42) == 0 {
        Some(Slot::Empty {
            position: (word >> 42) as u32,
        })
    } else {
        None
    }
}

/// The event of a word whose bit 63 is set.
fn read_full(word: u64) -> Slot
    ensures { result ≡ full_in word }
{
    let position = (word >> 42) % (1 << 21);
    let source = (word >> 38) % (1 << 4);
    let count = (word >> 32) % (1 << 6);
    Slot::Full {
        position: position as u32,
        source: SourceId(source as u8),
        count: count as u8,
        value: (word % (1 << 32)) as u32,
    }
}
