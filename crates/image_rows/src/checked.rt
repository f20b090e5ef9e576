//! The first place at which words fail (image_checks).

use crate::fixtures::{CLOCK, COMMIT, plan, words_with};
use fram_words::Place;
use image_checks::first_failing;
use ink_base::{JobAnswer, ThreadId};
use std::alloc::Global;
use std::test::Fail;

// Where the first words fail once one of them is changed.
fn failing_with(alloc: Global, address: usize, word: u64) -> Result<Option<Place>, JobAnswer> {
    let plan = plan(alloc)?;
    let words = words_with(alloc, &plan, address, word)?;
    Ok(first_failing(&plan, words.as_slice()))
}

#[test]
fn a_later_clock_and_a_commit_word(rt: HostRuntime) -> Result<(), Fail> {
    assert!(rt; failing_with(rt.alloc(), CLOCK, 5)?.is_none());
    let failing = failing_with(rt.alloc(), COMMIT, 128)?;
    assert!(rt;
        matches!(
            failing,
            Some(Place::Commit {
                thread: ThreadId(0)
            })
        )
    );
    Ok(())
}
