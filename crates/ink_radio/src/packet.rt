//! Packets and their bytes.

ghost use Rattle.std.specs.Prelude.{◌≡◌, ◌++◌, IfOk, OnOk};
ghost use Rattle.ink_radio.specs.Packets.{IsPacket, output_bytes, packet_bytes};

use ink_base::{NoMemory, Output};
use std::alloc::Global;

/// What a node and a base send to each other.
#[derive(Clone, Copy, Debug, PartialEq, Eq)]
pub enum Packet {
    /// An output of the node, and its number among all outputs.
    Data { number: u32, output: Output },
    /// How many outputs the base has saved.
    Ack { count: u32 },
}

fn put_output(bytes: &mut Vec<u8>, output: &Output) -> Result<(), NoMemory>
    ensures { OnOk result (bytes.new.items ≡ bytes.old.items ++ output_bytes output.now) }
{
    bytes.extend_from_slice(&output.stamp.to_be_bytes())?;
    bytes.push(output.thread.0)?;
    bytes.extend_from_slice(&output.value.to_be_bytes())?;
    Ok(())
}

/// The bytes of a packet: `D`, the number in 4 bytes, and of the output the stamp in 8, the thread in 1 and the value in 4; or `A` and the count
/// in 4. Of each number the most significant byte comes first. The thread is below 16.
pub fn encode_packet(alloc: Global, packet: &Packet) -> Result<Vec<u8>, NoMemory>
    requires { IsPacket packet.now }
    ensures { IfOk result (λ bytes. bytes.items ≡ packet_bytes packet.now) }
{
    let mut bytes = Vec::new(alloc);
    match packet {
        Packet::Data { number, output } => {
            bytes.push(b'D')?;
            bytes.extend_from_slice(&number.to_be_bytes())?;
            put_output(&mut bytes, output)?;
        }
        Packet::Ack { count } => {
            bytes.push(b'A')?;
            bytes.extend_from_slice(&count.to_be_bytes())?;
        }
    }
    Ok(bytes)
}
