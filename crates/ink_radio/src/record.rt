//! What is told of a radio.

use ink_base::Output;
use sqlite_items::Items;

/// What a script leads to: the outputs that the base has saved and those that it hasn't saved yet, how many the node knows as saved, how many
/// outputs were sent, and the bytes of each packet that was sent.
#[derive(Drop)]
pub struct RadioRecord {
    pub saved: Items<Output>,
    pub fresh: Items<Output>,
    pub acked: u32,
    pub sent: u32,
    pub air: Items<Items<u8>>,
}
