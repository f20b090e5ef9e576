//! What of the sources' readings has come out.

use ink_base::{Event, Origin};
use push_core::{Slot, empty, read_slot};

/// The readings of up to four sources that have come out, in the order of the queue. A reading has its number as value.
#[derive(Clone, Copy, Drop)]
pub struct Served {
    pub next: [u32; 4],
    pub in_order: bool,
}

impl Served {
    /// Nothing has come out.
    pub fn none() -> Served {
        Served {
            next: [0; 4],
            in_order: true,
        }
    }

    /// A reading has come out.
    fn see(&mut self, source: u8, value: u32) {
        match self.next.get_mut(source as usize) {
            Some(next) if *next == value => *next = value.saturating_add(1),
            _ => self.in_order = false,
        }
    }

    /// An event has come out.
    pub fn take(&mut self, event: &Event) {
        match event.origin {
            Origin::Source { source, .. } => self.see(source.0, event.value),
            _ => self.in_order = false,
        }
    }

    /// So many readings of all sources have come out, each source's in order.
    pub fn is(&self, readings: u32) -> bool {
        let [a, b, c, d] = self.next;
        self.in_order && a as u64 + b as u64 + c as u64 + d as u64 == readings as u64
    }
}

/// The word at an address.
fn word(words: &[u64], at: usize) -> u64 {
    words.get(at).copied().unwrap_or(u64::MAX)
}

/// The slots of a queue with four places hold the events from the first position up to the second, in their places, and are else free.
fn see_slots(words: &[u64], released: u32, published: u32, served: &mut Served) -> bool {
    for position in released..released.saturating_add(4) {
        let held = word(words, 1 + (position % 4) as usize);
        match read_slot(held) {
            Some(
                Slot::Full {
                    position: at,
                    source,
                    value,
                    ..
                },
            ) if at == position && position < published => served.see(source.0, value),
            Some(Slot::Empty { position: at }) if at == position && published <= position => {}
            _ => return false,
        }
    }
    true
}

/// The words of a queue with four places and four sources account for so many readings: those that were released have come out, the
/// others stand in the slots, the tail is their number or one behind, and each ACK is the number of its source's that came out.
pub fn accounts(words: &[u64], released: u32, published: u32, served: &mut Served) -> bool {
    let acks = served.next;
    let tail = word(words, 0);
    let near = tail == published as u64 || tail.saturating_add(1) == published as u64;
    let acknowledged = (0..4usize).all(|i| word(words, 5 + i) == acks[i] as u64);
    near && acknowledged
        && word(words, 9) == 0
        && see_slots(words, released, published, served)
        && served.is(published)
}
