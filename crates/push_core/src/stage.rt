//! The rows of a source's access table.

/// A row of a source's access table, with what it goes on with. A tail is the one that the source loaded last.
#[derive(Clone, Copy)]
pub enum Stage {
    /// Boot: loads SRC.
    LoadSrc,
    /// Boot: loads this slot; `seen` says that an own event with the next count stood in an earlier one.
    LoadSlots { slot: u8, seen: bool },
    /// Boot: loads ACK.
    LoadAck { seen: bool },
    /// Loads TAIL, where a reading is left.
    LoadTail,
    /// Loads the slot of the tail.
    LoadSlot { tail: u32 },
    /// Exchanges the empty slot of the tail for the next reading.
    Publish { tail: u32 },
    /// Moves TAIL past the own event.
    MoveTail { tail: u32 },
    /// Moves TAIL past another's event.
    HelpTail { tail: u32 },
    /// Stores SRC past the refused reading.
    StoreSkip,
    /// Stores SRC past the published reading.
    StoreAccepted,
}
