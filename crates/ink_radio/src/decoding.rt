//! Packets from bytes.

ghost use Rattle.std.specs.Prelude.{◌≡◌, ◌≢◌, ◌↔◌, Some, None, IfSome};
ghost use Rattle.std.specs.Int.{w32, w64};
ghost use Rattle.std.specs.Option.{option_map};
ghost use Rattle.ink_radio.specs.declared.packet.Packet.{Packet as APacket};
ghost use Rattle.ink_radio.specs.Packets.{IsPacket, packet_bytes};
ghost use Rattle.ink_radio.specs.kept.Decoding.{number_at, thread_at, ended, output_at, data_at, ack_at, packet_in};

use crate::packet::Packet;
use ink_base::limits::THREADS;
use ink_base::{Output, ThreadId};

fn u32_at(bytes: &[u8]) -> Option<(u32, &[u8])>
    ensures { option_map (λ x. (x.0, x.1.now)) result ≡ number_at w32 bytes.now }
{
    let (number, rest) = bytes.split_first_chunk::<4>()?;
    Some((u32::from_be_bytes(*number), rest))
}

fn u64_at(bytes: &[u8]) -> Option<(u64, &[u8])>
    ensures { option_map (λ x. (x.0, x.1.now)) result ≡ number_at w64 bytes.now }
{
    let (number, rest) = bytes.split_first_chunk::<8>()?;
    Some((u64::from_be_bytes(*number), rest))
}

fn thread_at(bytes: &[u8]) -> Option<(ThreadId, &[u8])>
    ensures { option_map (λ x. (x.0, x.1.now)) result ≡ thread_at bytes.now }
{
    match bytes {
        [thread, rest @ ..] if usize::from(*thread) < THREADS => Some((ThreadId(*thread), rest)),
        _ => None,
    }
}

// The value, where nothing is left.
fn ended<T: Copy>(value: T, rest: &[u8]) -> Option<T>
    ensures { result ≡ ended value rest.now }
{
    if rest.is_empty() { Some(value) } else { None }
}

#[tactic(auto, unfolding(crate::specs::kept::Decoding::output_at))]
fn output_at(bytes: &[u8]) -> Option<Output>
    ensures { result ≡ output_at bytes.now }
{
    let (stamp, rest) = u64_at(bytes)?;
    let (thread, rest) = thread_at(rest)?;
    let (value, rest) = u32_at(rest)?;
    ended(
        Output {
            stamp,
            thread,
            value,
        },
        rest,
    )
}

#[tactic(auto, unfolding(crate::specs::kept::Decoding::data_at))]
fn data_at(bytes: &[u8]) -> Option<Packet>
    ensures { result ≡ data_at bytes.now }
{
    let (number, rest) = u32_at(bytes)?;
    let output = output_at(rest)?;
    Some(Packet::Data { number, output })
}

#[tactic(auto, unfolding(crate::specs::kept::Decoding::ack_at))]
fn ack_at(bytes: &[u8]) -> Option<Packet>
    ensures { result ≡ ack_at bytes.now }
{
    let (count, rest) = u32_at(bytes)?;
    ended(Packet::Ack { count }, rest)
}

/// The packet of bytes, as it is read from left to right.
#[tactic(auto, unfolding(crate::specs::kept::Decoding::packet_in))]
pub fn packet_in(bytes: &[u8]) -> Option<Packet>
    ensures { result ≡ packet_in bytes.now }
{
    match bytes {
        [b'D', rest @ ..] => data_at(rest),
        [b'A', rest @ ..] => ack_at(rest),
        _ => None,
    }
}

/// The packet that has these bytes, all of them. None exactly where no packet has these bytes.
pub fn decode_packet(bytes: &[u8]) -> Option<Packet>
    ensures found { IfSome result (λ packet. IsPacket packet × (bytes.now ≡ packet_bytes packet)) }
    ensures only { (packet : APacket) → IsPacket packet → bytes.now ≡ packet_bytes packet → result ≡ Some packet }
    ensures none { (result ≡ None) ↔ ((packet : APacket) → IsPacket packet → bytes.now ≢ packet_bytes packet) }
{
    packet_in(bytes)
}
