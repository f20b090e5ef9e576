//! What an image tells, and whether it is worn (image_state).

ghost use Rattle.std.specs.Prelude.{◌≡◌, length};
ghost use Rattle.ink_layout.specs.Shape.{shape_of, words_of};

use crate::fixtures::{CLOCK, has_sources, plan, words_with};
use image_checks::first_failing;
use image_state::{is_worn, read_off};
use ink_base::{JobAnswer, NoMemory};
use ink_layout::Plan;
use std::alloc::Global;
use std::test::Fail;

// The clock of the state that the words tell; none where they aren't an image, or are worn with so many readings listed.
fn clock_of(
    alloc: Global,
    plan: &Plan,
    listed: &[u32],
    words: &[u64],
) -> Result<Option<u64>, NoMemory>
    requires { length words.now ≡ words_of (shape_of plan.now.accepted) }
{
    if !has_sources(plan, listed) || first_failing(plan, words).is_some() {
        return Ok(None);
    }
    if is_worn(plan, listed, words) {
        return Ok(None);
    }
    Ok(Some(read_off(alloc, plan, words)?.clock))
}

// The clock that the first words tell once it is this one, with one reading listed.
fn clock_told(alloc: Global, time: u64) -> Result<Option<u64>, JobAnswer> {
    let plan = plan(alloc)?;
    let words = words_with(alloc, &plan, CLOCK, time)?;
    Ok(clock_of(alloc, &plan, &[1], words.as_slice())?)
}

#[test]
fn a_clock_is_told_up_to_half_its_way(rt: HostRuntime) -> Result<(), Fail> {
    assert_eq!(rt; clock_told(rt.alloc(), 5)?, Some(5));
    assert_eq!(rt; clock_told(rt.alloc(), 1 << 46)?, None);
    Ok(())
}
