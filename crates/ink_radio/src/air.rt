//! Everything that was sent.

use crate::decoding::packet_in;
use crate::packet::{Packet, encode_packet};
use ink_base::NoMemory;
use sqlite_items::Items;
use std::alloc::Global;
use std::marker::Model;

/// All packets that were sent, from number 0 on, as the bytes that a receiver gets. Contracts see the packets.
#[derive(Drop)]
pub struct Air {
    packets: Items<Items<u8>>,
}

impl Model for Air {
    ghost use Rattle.std.specs.Prelude.{List, map};
    ghost use Rattle.std.specs.List.{AllByRecursion};
    ghost use Rattle.ink_radio.specs.declared.packet.Packet.{Packet as APacket};
    ghost use Rattle.ink_radio.specs.kept.Decoding.{packet_of, IsCoded};

    ghost Value = { List APacket };

    ghost view = { λ air. map packet_of air.packets };

    ghost invariant = { λ air. AllByRecursion IsCoded air.packets };
}

impl Air {
    ghost use Rattle.std.specs.Prelude.{◌≡◌, ◌<◌, ◌^◌, ◌++◌, ◌∷◌, [], length, map, count_by, slice_get, IfOk, OnOk};
    ghost use Rattle.ink_radio.specs.Packets.{IsPacket, packet_bytes};
    ghost use Rattle.ink_radio.specs.Radio.{is_data};

    /// Nothing was sent.
    pub fn new(alloc: Global) -> Air
        ensures { result ≡ [] }
    {
        Air {
            packets: Items::new(alloc),
        }
    }

    /// Sends a packet.
    pub fn send(&mut self, alloc: Global, packet: &Packet) -> Result<(), NoMemory>
        requires { IsPacket packet.now }
        ensures { OnOk result (self.new ≡ self.old ++ packet.now ∷ []) }
    {
        let bytes = encode_packet(alloc, packet)?;
        self.packets.push(Items::from_vec(bytes))?;
        Ok(())
    }

    /// The packet of this number, if one was sent.
    pub fn packet(&self, number: u32) -> Option<Packet>
        ensures { result ≡ slice_get self.now number }
    {
        match self.packets.get(number as usize) {
            Some(bytes) => packet_in(bytes.as_slice()),
            None => None,
        }
    }

    /// How many packets were sent.
    pub fn len(&self) -> usize
        ensures { result ≡ length self.now }
    {
        self.packets.len()
    }

    /// The bytes of each packet.
    pub fn into_bytes(self) -> Items<Items<u8>>
        ensures { result ≡ map packet_bytes self }
    {
        let Air { packets } = self;
        packets
    }
}
