//! Runs of the shared queues.

mod carrying;
mod kinds;
mod opening;
mod rounds;
mod served;
mod threads;

use carrying::taken_and_told;
use ink_base::NoMemory;
use kinds::words_after;
use opening::open;
use rounds::take_all;
use served::{Served, accounts};
use std::alloc::Global;
use std::sync::atomic::{AtomicU32, Ordering};
use std::test::Fail;
use std::thread::Threads;
use threads::{all_at_once, push_at_once};

/// Two sources publish 16 readings each at once, in at most 50 rounds of four steps. Then the kernel finds each of them, in order.
fn two_at_once<R: Threads + Sync>(rt: &R, alloc: Global) -> Result<bool, NoMemory> {
    let (set, mut kernel, mut seats, _clock) = open(alloc, 32, 2)?;
    let published = AtomicU32::new(0);
    push_at_once(rt, &set, seats.as_mut_slice(), 32, 16, 50, &published);
    let mut served = Served::none();
    let taken = take_all(&set, &mut kernel, 33, &mut served);
    Ok(
        published.load(Ordering::SeqCst) == 32
            && taken == 32
            && served.is(32)
            && served.next == [16, 16, 0, 0],
    )
}

#[test]
fn two_callers(rt: HostRuntime) -> Result<(), Fail> {
    assert!(rt; two_at_once(&rt, rt.alloc())?);
    Ok(())
}

/// Four sources and the kernel on a queue with four places, all at once. The words at the end account for each reading.
fn five_at_once<R: Threads + Sync>(rt: &R, alloc: Global) -> Result<bool, NoMemory> {
    let (set, mut kernel, mut seats, clock) = open(alloc, 4, 4)?;
    let published = AtomicU32::new(0);
    let mut served = Served::none();
    let released = all_at_once(
        rt,
        &set,
        &mut kernel,
        seats.as_mut_slice(),
        &published,
        &mut served,
    );
    let closed = set.finish(kernel, seats, clock);
    let published = published.load(Ordering::SeqCst);
    Ok(published >= 4 && accounts(closed.words.as_slice(), released, published, &mut served))
}

#[test]
fn a_hundred_runs_account_for_each_reading(rt: HostRuntime) -> Result<(), Fail> {
    for _ in 0..100 {
        assert!(rt; five_at_once(&rt, rt.alloc())?);
    }
    Ok(())
}

#[test]
fn finish_gives_the_words_after_each_kind_of_step(rt: HostRuntime) -> Result<(), Fail> {
    let free = [0, 0, 1 << 42, 0, 0];
    let published = [0, 0x8000000000000007, 1 << 42, 0, 0];
    let helped = [1, 0x8000000000000007, 1 << 42, 0, 0];
    let acknowledged = [1, 0x8000000000000007, 1 << 42, 1, 0];
    let released = [1, 2 << 42, 1 << 42, 1, 0];
    let ticked = [1, 2 << 42, 1 << 42, 1, 5];
    for (source, kernel, ticks, words) in [
        (0, 0, 0, free),
        (1, 0, 0, free),
        (2, 0, 0, free),
        (3, 0, 0, published),
        (4, 0, 0, helped),
        (5, 0, 0, helped),
        (5, 1, 0, helped),
        (5, 2, 0, acknowledged),
        (5, 3, 0, released),
        (5, 4, 0, released),
        (5, 4, 5, ticked),
    ] {
        let got = words_after(&rt, rt.alloc(), source, kernel, ticks)?;
        assert!(rt; got.as_slice() == words.as_slice());
    }
    Ok(())
}

/// A source and the kernel that tell each other what they know. Answers the value that the kernel took before.
#[tactic(auto, using(crate::proofs::Queues::new_last))]
fn told_by_notes(alloc: Global) -> Result<Option<u32>, NoMemory> {
    let (set, mut kernel, mut seats, _clock) = open(alloc, 4, 1)?;
    let Some(mut seat) = seats.pop() else {
        return Ok(None);
    };
    Ok(taken_and_told(&set, &mut kernel, &mut seat))
}

#[test]
fn a_count_goes_from_the_kernel_to_a_source_and_back(rt: HostRuntime) -> Result<(), Fail> {
    assert_eq!(rt; told_by_notes(rt.alloc())?, Some(7));
    Ok(())
}
