//! The record of a charge while it is written.
ghost use Rattle.std.specs.Prelude.{◌≡◌, ◌+◌, ◌-◌, ◌<◌, ◌≤◌, ◌^◌, length, slice_index, vec_len, vec_capacity, IfOk};
ghost use Rattle.never_cut.specs.Journal.{noted};
ghost use Rattle.kernel_core.specs.Record.{not_begun, begun, with_kernel, with_source, with_tick};
ghost use Rattle.kernel_core.specs.kept.Recorded.{Recorded, emptied};

use crate::charge_record::ChargeRecord;
use ink_base::{Entry, NoMemory};
use sqlite_items::Items;
use std::alloc::Global;
use std::marker::Model;

/// The record of a charge, to which turns add. Contracts see it, and for how many more entries and for how many in all there is room.
#[derive(Drop)]
pub(crate) struct Recording {
    off: u32,
    entries: Vec<Entry>,
    kernel_steps: u32,
    source_steps: Vec<u32>,
    tick_steps: u32,
}

impl Model for Recording {
    ghost Value = { Recorded };

    ghost view = { λ c. record { charge = record { off = c.off; entries = c.entries.items; kernel_steps = c.kernel_steps; source_steps = c.source_steps.items; tick_steps = c.tick_steps }; spare = vec_capacity c.entries - vec_len c.entries; capacity = vec_capacity c.entries } };
}

impl Recording {
    /// The record of a charge that has not begun, on a board of so many sources, with room for so many entries.
    pub fn new(alloc: Global, sources: usize, room: usize) -> Result<Recording, NoMemory>
        ensures charge { IfOk result (λ r. r.charge ≡ not_begun sources) }
        ensures room { IfOk result (λ r. room ≤ r.spare) }
        ensures capacity { IfOk result (λ r. room ≤ r.capacity) }
    {
        let entries = Vec::with_capacity(alloc, room)?;
        let mut source_steps = Vec::new(alloc);
        source_steps.resize(sources, 0)?;
        Ok(Recording {
            off: 0,
            entries,
            kernel_steps: 0,
            source_steps,
            tick_steps: 0,
        })
    }

    /// The record of the charge. It takes no memory.
    pub fn finish(self) -> ChargeRecord
        ensures { result ≡ self.charge }
    {
        let Recording {
            off,
            entries,
            kernel_steps,
            source_steps,
            tick_steps,
        } = self;
        ChargeRecord {
            off,
            entries: Items::from_vec(entries),
            kernel_steps,
            source_steps: Items::from_vec(source_steps),
            tick_steps,
        }
    }

    /// The charge has not begun, and there is room for as many entries as at first. It takes no memory.
    pub fn clear(&mut self)
        ensures { self.new ≡ emptied self.old }
    {
        self.off = 0;
        self.entries.clear();
        self.kernel_steps = 0;
        self.source_steps.fill(0);
        self.tick_steps = 0;
    }

    fn note(&mut self, entry: Option<Entry>)
        requires { 0 < self.old.spare }
        ensures charge { self.new.charge ≡ record (self.old.charge) { entries = noted self.old.charge.entries entry } }
        ensures spare { self.old.spare ≤ self.new.spare + 1 }
        ensures capacity { self.new.capacity ≡ self.old.capacity }
    {
        if let Some(entry) = entry {
            self.entries.push_reserved(entry);
        }
    }

    pub fn begin(&mut self, off: u32)
        requires spare { 0 < self.old.spare }
        ensures charge { self.new.charge ≡ begun off self.old.charge }
        ensures spare { self.old.spare ≤ self.new.spare + 1 }
        ensures capacity { self.new.capacity ≡ self.old.capacity }
    {
        self.off = off;
        self.note(Some(Entry::Tick { by: off as u64 }));
    }

    pub fn note_kernel(&mut self, entry: Option<Entry>)
        requires spare { 0 < self.old.spare }
        requires steps { self.old.charge.kernel_steps + 1 < 2 ^ 32 }
        ensures charge { self.new.charge ≡ with_kernel entry self.old.charge }
        ensures spare { self.old.spare ≤ self.new.spare + 1 }
        ensures capacity { self.new.capacity ≡ self.old.capacity }
    {
        self.note(entry);
        self.kernel_steps += 1;
    }

    pub fn note_source(&mut self, source: usize, entry: Option<Entry>)
        requires spare { 0 < self.old.spare }
        requires known { source < length self.old.charge.source_steps }
        requires steps { slice_index self.old.charge.source_steps source + 1 < 2 ^ 32 }
        ensures charge { self.new.charge ≡ with_source source entry self.old.charge }
        ensures spare { self.old.spare ≤ self.new.spare + 1 }
        ensures capacity { self.new.capacity ≡ self.old.capacity }
    {
        self.note(entry);
        self.source_steps[source] += 1;
    }

    pub fn note_tick(&mut self)
        requires spare { 0 < self.old.spare }
        requires steps { self.old.charge.tick_steps + 1 < 2 ^ 32 }
        ensures charge { self.new.charge ≡ with_tick self.old.charge }
        ensures spare { self.old.spare ≤ self.new.spare + 1 }
        ensures capacity { self.new.capacity ≡ self.old.capacity }
    {
        self.note(Some(Entry::Tick { by: 1 }));
        self.tick_steps += 1;
    }
}
