//! The words of a live board at the end.
ghost use Rattle.std.specs.Prelude.{◌≡◌, ◌+◌, ◌-◌, ◌<◌, ◌≤◌, ℕ, length, slice_index};
ghost use Rattle.event_queue.specs.declared.view.Lay.{Lay};
ghost use Rattle.kernel_actor.specs.Lays.{IsLayOf};
ghost use Rattle.live_words.specs.Finals.{CanJoin, AreFinal};
ghost use Rattle.live_words.specs.Puts.{IsPut};

use event_queue::Closed;
use ink_layout::Plan;

/// Puts some words in the place of those from an address on.
fn put_words(words: &mut Vec<u64>, from: usize, parts: &[u64])
    requires { from + length parts.now ≤ length words.old.items }
    ensures { IsPut from parts.now words.old.items words.new.items }
{
    for (i, word) in parts.iter().enumerate() {
        words[from + i] = *word;
    }
}

/// The words of the board at the end: the kernel's own words, and in their places the words of the closed set of queues, its tails, slots
/// and ACKs and the clock, and the SRC of each source, in the order of the sources. It takes no memory.
pub fn final_words(plan: &Plan, mut words: Vec<u64>, closed: &Closed, srcs: &[u64]) -> Vec<u64>
    requires { CanJoin plan.now.accepted words.items closed.now.words.items srcs.now }
    ensures { (lay : Lay) → IsLayOf plan.now.accepted lay → AreFinal plan.now.accepted lay words.items closed.now.words.items srcs.now result.items }
{
    // The layout is the program's own.
    let _program = plan.program();
    let shared = plan.layout.private as usize;
    put_words(&mut words, shared, &closed.words);
    put_words(&mut words, plan.layout.srcs as usize, srcs);
    words
}
