//! The words of a queue's slots in the earlier form.
ghost use Rattle.std.specs.Prelude.{◌≡◌, ◌≢◌, IfSome, IfNone};
ghost use Rattle.old_image.specs.declared.old_slot.OldSlot.{OldSlot};
ghost use Rattle.old_image.specs.Slots.{old_slot_in, old_full_in, old_word_of, IsOldSlot};

use ink_base::SourceId;

/// What a slot's word of the earlier form stands for. A position counts places over all turns of the queue's ring, from 0.
#[derive(Clone, Copy, Debug, PartialEq, Eq)]
pub enum OldSlot {
    /// The slot is free for the event of this position.
    Empty {
        position: u32,
    },
    /// The slot holds the event of this position: its source, the number of its reading from 0, and its value.
    Full {
        position: u32,
        source: SourceId,
        reading: u16,
        value: u16,
    },
}

/// The slot that has this word in the earlier form, if one has: an event has its value in bits 0 to 15, the number of its reading in
/// 16 to 31, its source in 32 to 35, its position in 36 to 56, and bit 57 set; an empty slot has its position there and zeros.
pub fn read_old_slot(word: u64) -> Option<OldSlot>
    ensures computed { result ≡ old_slot_in word }
    ensures read { IfSome result (λ slot. IsOldSlot slot × (old_word_of slot ≡ word)) }
    ensures none { IfNone result ((slot : OldSlot) → IsOldSlot slot → old_word_of slot ≢ word) }
{
    if word >> 57 == 1 {
        Some(read_full(word))
    } else if word < 1 << 57 && word % (1 << 36) == 0 {
        Some(OldSlot::Empty {
            position: (word >> 36) as u32,
        })
    } else {
        None
    }
}

// The event of a word whose highest bit is bit 57.
fn read_full(word: u64) -> OldSlot
    ensures { result ≡ old_full_in word }
{
    let position = (word >> 36) % (1 << 21);
    let source = (word >> 32) % (1 << 4);
    let reading = (word >> 16) % (1 << 16);
    OldSlot::Full {
        position: position as u32,
        source: SourceId(source as u8),
        reading: reading as u16,
        value: (word % (1 << 16)) as u16,
    }
}
