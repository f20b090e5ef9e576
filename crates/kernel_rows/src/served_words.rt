//! What the words of a board say after a service.

ghost use Rattle.std.specs.Prelude.{◌<◌};

use crate::fixtures::plan;
use crate::task_board::numbers;
use fram_words::{Fram, Header, ThreadPlace};
use ink_base::Addr;
use ink_base::limits::BOARD_WORDS;
use ink_layout::{Pick, Plan, first_image};
use std::alloc::Global;

// The word at an address; none exactly where it isn't on the board.
fn word_at(fram: &Fram, addr: Addr) -> Option<u64> {
    if addr < fram.len() {
        Some(fram.word(addr))
    } else {
        None
    }
}

// A word of the committed copy of a thread's header.
fn header(place: &ThreadPlace, fram: &Fram, word: u32) -> Option<u64> {
    let mask = word_at(fram, place.commit)?;
    if word < Header::WORDS && place.first < BOARD_WORDS {
        let copy = (mask >> (word / 8) & 1) as u32;
        word_at(fram, place.first + 16 * (word / 8) + 8 * copy + word % 8)
    } else {
        None
    }
}

// Four of them.
fn headers(place: &ThreadPlace, fram: &Fram, words: [u32; 4]) -> Option<[u64; 4]> {
    let [a, b, c, d] = words;
    Some([
        header(place, fram, a)?,
        header(place, fram, b)?,
        header(place, fram, c)?,
        header(place, fram, d)?,
    ])
}

// The words of the first two outputs of a thread.
fn outputs(place: &ThreadPlace, fram: &Fram) -> Option<[u64; 2]> {
    Some([
        word_at(fram, place.log)?,
        word_at(fram, place.log.wrapping_add(1))?,
    ])
}

// The first ring word of the first pipe.
fn first_item(rings: &[Addr], fram: &Fram) -> Option<u64> {
    word_at(fram, *rings.first()?)
}

/// What the service of a pick is seen by: the numbers of its accesses that commit and that release, counted from 1, and 0 for none; some
/// words of the thread's header after it, and its first two outputs; and the first item of the first pipe, where there is one.
#[derive(Clone, Copy)]
pub(crate) struct Served {
    pub numbers: (u32, u32),
    pub headers: [u64; 4],
    pub outputs: [u64; 2],
    pub item: Option<u64>,
}

// The service of a pick on the words of a board, after so many commits.
fn served_on(
    plan: &Plan,
    fram: &mut Fram,
    pick: Pick,
    stamp: u64,
    words: [u32; 4],
) -> Option<Served> {
    let numbers = numbers(plan, fram, pick, stamp);
    let place = plan.layout.threads.as_slice().get(pick.thread.0 as usize)?;
    Some(Served {
        numbers,
        headers: headers(place, fram, words)?,
        outputs: outputs(place, fram)?,
        item: first_item(plan.layout.rings.as_slice(), fram),
    })
}

/// The service of a pick on the first image of a job's program, after so many commits, and these words of the thread's header after it.
pub(crate) fn serve(
    alloc: Global,
    text: &[u8],
    pick: Pick,
    stamp: u64,
    words: [u32; 4],
) -> Option<Served> {
    let plan = plan(alloc, text).ok()?;
    let mut fram = first_image(alloc, &plan.accepted, &plan.layout).ok()?;
    served_on(&plan, &mut fram, pick, stamp, words)
}
