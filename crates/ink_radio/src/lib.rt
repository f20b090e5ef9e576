//! Packets of outputs from a node to a base, over a radio that loses, repeats and reorders them: their bytes, the script of what happens, and the
//! state that it leads to.
#![tactic(auto)]

mod air;
mod decoding;
mod event;
mod forms;
mod laws;
pub mod limits;
mod packet;
mod playing;
mod record;
mod script;
mod state;

pub use decoding::decode_packet;
pub use event::RadioEvent;
pub use laws::every_prefix_keeps;
pub use packet::{Packet, encode_packet};
pub use playing::radio;
pub use record::RadioRecord;
pub use script::read_script;

#[cfg(test)]
mod tests;
