//! A source and a sink in memory, some of whose calls fail.

ghost use Rattle.std.specs.Prelude.{◌≡◌, ◌≤◌, ◌↔◌, [], Some, length, vec_capacity, IfOk, IsErr, IsTrue};
ghost use Rattle.std.specs.Io.{ReadsAtMost, WritesAtMost};
ghost use Rattle.std.specs.Io.KnownBytes.{ReadConsumes, WriteAppends};
ghost use Rattle.ink_io.specs.Counts.{HasCause, CountsOk};
ghost use Rattle.ink_io.specs.Bytes.{TakesSome};
ghost use Rattle.ink_io.specs.Memory.{MemorySource, MemorySink, no_calls, fails_next, read_count, after_read, write_count, write_fails, after_write};

use crate::answers::Failed;
use crate::calls::Calls;
use crate::sink::Sink;
use crate::source::Source;
use crate::unread::Unread;
use ink_base::NoMemory;
use std::alloc::Global;
use std::marker::Model;

/// Bytes in memory. A read gives at most `chunk` of them, and the reads in a list fail, numbered from 1.
#[derive(Drop)]
pub struct MemSource {
    unread: Unread,
    chunk: usize,
    calls: Calls,
    reads: u64,
}

impl Model for MemSource {
    ghost Value = { MemorySource };

    ghost view = { λ s. record { left = s.unread; chunk = s.chunk; calls = s.calls; reads = s.reads } };

    ghost invariant = { λ s. 1 ≤ s.chunk };
}

impl MemSource {
    /// Gives these bytes in order, at most `chunk` at each read. The reads whose numbers are in `fail_at` fail.
    pub fn new(bytes: Vec<u8>, chunk: usize, fail_at: Vec<u64>) -> MemSource
        requires { 1 ≤ chunk }
        ensures { result ≡ record { left = bytes.items; chunk = chunk; calls = no_calls fail_at.items; reads = 0 } }
    {
        MemSource {
            unread: Unread::new(bytes),
            chunk,
            calls: Calls::new(fail_at),
            reads: 0,
        }
    }
}

impl Source for MemSource {
    ghost state = { λ s. record { left = Some s.left; faults = s.calls.faults; reads = s.reads } };

    fn read(&mut self, into: &mut [u8]) -> Result<usize, Failed>
        ensures fails { IsErr result ↔ IsTrue (fails_next self.old.calls) }
        ensures count { IfOk result (λ n. n ≡ read_count self.old (length into.old)) }
        ensures after { self.new ≡ after_read self.old (length into.old) }

        // What every source promises.
        ensures bound { ReadsAtMost result into.new }
        ensures bytes { ReadConsumes (Some self.old.left) (Some self.new.left) result into.new }
        ensures cause { HasCause self.old.calls.faults self.new.calls.faults result }
        ensures counted { CountsOk self.old.reads self.new.reads result }
    {
        self.calls.make(true)?;
        self.reads = self.reads.saturating_add(1);
        Ok(self.unread.give(into, self.chunk))
    }
}

/// Bytes in memory up to a capacity. A write takes at most `chunk` of them, and the writes in a list fail, numbered
/// from 1, as do those that don't fit.
#[derive(Drop)]
pub struct MemSink {
    bytes: Vec<u8>,
    capacity: usize,
    chunk: usize,
    calls: Calls,
}

impl Model for MemSink {
    ghost Value = { MemorySink };

    ghost view = { λ s. record { held = s.bytes.items; capacity = s.capacity; chunk = s.chunk; calls = s.calls } };

    ghost invariant = { λ s. (1 ≤ s.chunk) × (length s.bytes.items ≤ s.capacity) × (s.capacity ≤ vec_capacity s.bytes) };
}

impl MemSink {
    /// Holds nothing, and has the memory for `capacity` bytes. A write takes at most `chunk` bytes. The writes whose
    /// numbers are in `fail_at` fail.
    pub fn new(
        alloc: Global,
        capacity: usize,
        chunk: usize,
        fail_at: Vec<u64>,
    ) -> Result<MemSink, NoMemory>
        requires { 1 ≤ chunk }
        ensures { IfOk result (λ sink. sink
            ≡ record { held = []; capacity = capacity; chunk = chunk; calls = no_calls fail_at.items }) }
    {
        Ok(MemSink {
            bytes: Vec::with_capacity(alloc, capacity)?,
            capacity,
            chunk,
            calls: Calls::new(fail_at),
        })
    }

    /// What it holds.
    pub fn bytes(&self) -> &[u8]
        ensures { result.now ≡ self.now.held }
    {
        self.bytes.as_slice()
    }
}

impl Sink for MemSink {
    ghost state = { λ s. record { held = Some s.held; faults = s.calls.faults } };

    fn write(&mut self, piece: &[u8]) -> Result<usize, Failed>
        ensures fails { IsErr result ↔ IsTrue (write_fails self.old (length piece.now)) }
        ensures count { IfOk result (λ n. n ≡ write_count self.old (length piece.now)) }
        ensures after { self.new ≡ after_write self.old piece.now }

        // What every sink promises.
        ensures bound { WritesAtMost result piece.now }
        ensures some { TakesSome result piece.now }
        ensures bytes { WriteAppends (Some self.old.held) (Some self.new.held) result piece.now }
        ensures cause { HasCause self.old.calls.faults self.new.calls.faults result }
    {
        let count = self.chunk.min(piece.len());
        self.calls.make(count <= self.capacity - self.bytes.len())?;
        // The room was taken at first, so this can't be refused.
        let _ = self.bytes.extend_from_slice(&piece[..count]);
        Ok(count)
    }
}
