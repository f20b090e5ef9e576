//! The words of two small programs, with their addresses counted by hand.

use crate::fixtures::{SUMMING, TIMED, plan};
use fram_words::{Fram, Layout};
use ink_base::{JobAnswer, NoMemory};
use ink_layout::first_image;
use std::alloc::Global;
use std::test::Fail;

// The numbers of a layout, in the order of its fields.
fn numbers(alloc: Global, layout: &Layout) -> Result<Vec<u32>, NoMemory> {
    let mut numbers = Vec::from_slice(alloc, layout.tasks.as_slice())?;
    for thread in layout.threads.as_slice() {
        numbers.extend_from_slice(&[thread.commit, thread.first, thread.words, thread.log])?;
    }
    numbers.push(layout.private)?;
    for queue in layout.queues.as_slice() {
        numbers.extend_from_slice(&[queue.tail, queue.slots, queue.places as u32])?;
    }
    numbers.extend_from_slice(&[layout.acks, layout.clock, layout.srcs, layout.words])?;
    Ok(numbers)
}

fn layout_of(alloc: Global, text: &[u8]) -> Result<Vec<u32>, JobAnswer> {
    let plan = plan(alloc, text)?;
    Ok(numbers(alloc, &plan.layout)?)
}

// The addresses of the words that aren't 0, each followed by its word.
fn full_of(alloc: Global, fram: &Fram) -> Result<Vec<u64>, NoMemory> {
    let mut full = Vec::new(alloc);
    for addr in 0..fram.len() {
        let word = fram.word(addr);
        if word != 0 {
            full.extend_from_slice(&[addr as u64, word])?;
        }
    }
    Ok(full)
}

fn image_of(alloc: Global, text: &[u8]) -> Result<Vec<u64>, JobAnswer> {
    let plan = plan(alloc, text)?;
    let image = first_image(alloc, &plan.accepted, &plan.layout)?;
    Ok(full_of(alloc, &image)?)
}

#[test]
fn addresses_of_a_thread_and_its_source(rt: HostRuntime) -> Result<(), Fail> {
    let expected = [0, 7, 8, 49, 120, 128, 128, 129, 2, 131, 132, 133, 134];
    let numbers = layout_of(rt.alloc(), SUMMING)?;
    assert_eq!(rt; numbers.as_slice(), expected.as_slice());
    Ok(())
}

#[test]
fn code_and_empty_slots_of_a_first_image(rt: HostRuntime) -> Result<(), Fail> {
    let expected = [
        0,
        0x101,
        1,
        0x1216,
        2,
        0x312,
        3,
        0x32203,
        4,
        0x1217,
        5,
        0x218,
        6,
        0x1d,
        130,
        1 << 42,
    ];
    let words = image_of(rt.alloc(), SUMMING)?;
    assert_eq!(rt; words.as_slice(), expected.as_slice());
    Ok(())
}

#[test]
fn a_timer_starts_in_both_copies(rt: HostRuntime) -> Result<(), Fail> {
    let expected = [0, 0x1d, 52, 11, 53, 20, 60, 11, 61, 20, 108, 1 << 42];
    let words = image_of(rt.alloc(), TIMED)?;
    assert_eq!(rt; words.as_slice(), expected.as_slice());
    Ok(())
}
