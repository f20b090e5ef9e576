//! What a charge leaves behind.

use ink_base::Entry;
use sqlite_items::Items;

/// The ticks that the board was dark before a charge, the entries that the charge added to the journal, in order, and how many accesses
/// the kernel, each source and the clock made in it. The first entry is the tick of the dark; the clock's access of a cut isn't counted.
#[derive(Drop)]
pub struct ChargeRecord {
    pub off: u32,
    pub entries: Items<Entry>,
    pub kernel_steps: u32,
    pub source_steps: Items<u32>,
    pub tick_steps: u32,
}
