//! A node, a base, and what was sent between them.

use crate::air::Air;
use crate::event::RadioEvent;
use crate::limits::{OUTPUTS, SCRIPT_LINES};
use crate::packet::Packet;
use crate::record::RadioRecord;
use ink_base::limits::THREADS;
use ink_base::{NoMemory, Output};
use sqlite_items::{Items, at};
use std::alloc::Global;
use std::mem::replace;

/// What a node and a base have, and all packets that were sent.
#[derive(Drop)]
pub struct RadioState {
    /// How many outputs the node knows as saved. It outlives a cut of the node.
    pub acked: u32,
    /// The number of the output that the node sends next.
    pub cursor: u32,
    /// How many outputs are committed.
    pub grown: u32,
    /// The outputs that the base has and doesn't lose.
    pub saved: Items<Output>,
    /// The outputs behind them that the base loses with its next cut.
    pub fresh: Items<Output>,
    /// All packets that were sent.
    pub air: Air,
}

ghost use Rattle.std.specs.Prelude.{◌≡◌, ◌+◌, ◌<◌, ◌≤◌, min, length, count_by, slice_get, All, IfSome, OnSome, OnOk};
ghost use Rattle.ink_radio.specs.Packets.{IsOutput};
ghost use Rattle.ink_radio.specs.Radio.{quiet, next_output, after_send, taken, at_base, at_node, after_save, after_event, is_data, record_of};
ghost use Rattle.ink_radio.specs.kept.Counting.{has_data};
ghost use Rattle.ink_radio.specs.kept.Reached.{IsReached};

impl RadioState {
    /// Before the first event.
    pub fn quiet(alloc: Global) -> RadioState
        ensures { result ≡ quiet }
    {
        RadioState {
            acked: 0,
            cursor: 0,
            grown: 0,
            saved: Items::new(alloc),
            fresh: Items::new(alloc),
            air: Air::new(alloc),
        }
    }

    // So many further outputs are committed, of so many in all.
    fn grow(&mut self, count: u32, all: usize)
        requires { all ≤ OUTPUTS }
        ensures { self.new ≡ record self.old { grown = min (self.old.grown + count) all } }
    {
        let grown = u64::from(self.grown) + u64::from(count);
        self.grown = grown.min(all as u64) as u32;
    }

    // The output at the cursor, where it is committed.
    fn next_output(&self, outputs: &[Output]) -> Option<Output>
        requires { All (λ output. output.thread.0 < THREADS) outputs.now }
        ensures next { result ≡ next_output outputs.now self.now }
        ensures committed { OnSome result (self.now.cursor < self.now.grown) }
        ensures sendable { IfSome result IsOutput }
    {
        if self.cursor < self.grown {
            at(outputs, self.cursor as usize).copied()
        } else {
            None
        }
    }

    // The node sends the output at its cursor, if it has one there.
    fn send(&mut self, alloc: Global, outputs: &[Output]) -> Result<(), NoMemory>
        requires { All (λ output. output.thread.0 < THREADS) outputs.now }
        ensures { OnOk result (self.new ≡ after_send self.old (next_output outputs.now self.old)) }
    {
        if let Some(output) = self.next_output(outputs) {
            let number = self.cursor;
            self.air.send(alloc, &Packet::Data { number, output })?;
            self.cursor = number + 1;
        }
        Ok(())
    }

    // The packet of this number, if one was sent.
    fn packet(&self, number: u32) -> Option<Packet>
        ensures { result ≡ slice_get self.now.air number }
    {
        self.air.packet(number)
    }

    // How many outputs the base has.
    fn taken(&self) -> usize
        requires { taken self.now ≤ OUTPUTS }
        ensures { result ≡ taken self.now }
    {
        self.saved.len() + self.fresh.len()
    }

    // A packet comes to the base, which takes the output that follows those that it has.
    fn come_to_base(&mut self, packet: Option<Packet>) -> Result<(), NoMemory>
        requires { taken self.old ≤ OUTPUTS }
        ensures { OnOk result (self.new ≡ at_base self.old packet) }
    {
        if let Some(Packet::Data { number, output }) = packet {
            if number as usize == self.taken() {
                self.fresh.push(output)?;
            }
        }
        Ok(())
    }

    // A packet comes to the node, which learns how many outputs are saved.
    fn come_to_node(&mut self, packet: Option<Packet>)
        ensures { self.new ≡ at_node self.old packet }
    {
        if let Some(Packet::Ack { count }) = packet {
            self.acked = self.acked.max(count);
            self.cursor = self.cursor.max(count);
        }
    }

    // The base saves what it has, and sends how much that is.
    fn save(&mut self, alloc: Global) -> Result<(), NoMemory>
        requires { taken self.old ≤ OUTPUTS }
        ensures { OnOk result (self.new ≡ after_save self.old) }
    {
        let count = self.taken() as u32;
        self.air.send(alloc, &Packet::Ack { count })?;
        let fresh = replace(&mut self.fresh, Items::new(alloc));
        self.saved.append(fresh)?;
        Ok(())
    }

    /// What an event makes of the state, where these are all outputs of the node.
    pub fn happen(
        &mut self,
        alloc: Global,
        outputs: &[Output],
        event: RadioEvent,
    ) -> Result<(), NoMemory>
        requires few { length outputs.now ≤ OUTPUTS }
        requires threads { All (λ output. output.thread.0 < THREADS) outputs.now }
        requires reached { IsReached outputs.now self.old }
        ensures { OnOk result (self.new ≡ after_event outputs.now self.old event) }
    {
        match event {
            RadioEvent::Grow(count) => self.grow(count, outputs.len()),
            RadioEvent::Send => self.send(alloc, outputs)?,
            RadioEvent::Rewind | RadioEvent::NodeCut => self.cursor = self.acked,
            RadioEvent::ToBase(number) => {
                let packet = self.packet(number);
                self.come_to_base(packet)?;
            }
            RadioEvent::ToNode(number) => {
                let packet = self.packet(number);
                self.come_to_node(packet);
            }
            RadioEvent::Save => self.save(alloc)?,
            RadioEvent::BaseCut => self.fresh = Items::new(alloc),
        }
        Ok(())
    }

    /// What is told of the state.
    pub fn into_record(self) -> RadioRecord
        requires { length self.air ≤ SCRIPT_LINES }
        ensures { result ≡ record_of self }
    {
        let sent = data_count(&self.air);
        let RadioState {
            acked,
            saved,
            fresh,
            air,
            ..
        } = self;
        RadioRecord {
            saved,
            fresh,
            acked,
            sent,
            air: air.into_bytes(),
        }
    }
}

// Whether a packet is there and is an output.
fn has_data(packet: Option<Packet>) -> bool
    ensures { result ≡ has_data packet }
{
    matches!(packet, Some(Packet::Data { .. }))
}

// How many of the packets are outputs.
fn data_count(air: &Air) -> u32
    requires { length air.now ≤ SCRIPT_LINES }
    ensures { result ≡ count_by is_data air.now }
{
    let mut count = 0;
    for number in 0..air.len() as u32 {
        if has_data(air.packet(number)) {
            count += 1;
        }
    }
    count
}
