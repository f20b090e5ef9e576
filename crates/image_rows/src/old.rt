//! Images of the earlier form, and their change (old_image).

ghost use Rattle.std.specs.Prelude.{◌≡◌, length};
ghost use Rattle.ink_layout.specs.Shape.{shape_of, words_of};

use crate::fixtures::{SECOND_SLOT, has_sources, plan, words_with};
use ink_base::{JobAnswer, NoMemory};
use ink_layout::Plan;
use old_image::{OldSlot, first_failing_old, is_worn_old, read_old_slot, renew};
use std::alloc::Global;
use std::test::Fail;

// The empty word of position 1 in the earlier form.
const OLD_EMPTY: u64 = 1 << 36;

// The second slot once the words are renewed; none where they aren't an image of the earlier form, or are worn with so many readings listed.
fn slot_of(
    alloc: Global,
    plan: &Plan,
    listed: &[u32],
    words: &[u64],
) -> Result<Option<u64>, NoMemory>
    requires { length words.now ≡ words_of (shape_of plan.now.accepted) }
{
    if !has_sources(plan, listed) || first_failing_old(plan, words).is_some() {
        return Ok(None);
    }
    if is_worn_old(plan, listed, words) {
        return Ok(None);
    }
    let renewed = renew(alloc, plan, words)?;
    Ok(renewed.get(SECOND_SLOT).copied())
}

// That of the first words in the earlier form, with one reading listed.
fn renewed_slot(alloc: Global) -> Result<Option<u64>, JobAnswer> {
    let plan = plan(alloc)?;
    let words = words_with(alloc, &plan, SECOND_SLOT, OLD_EMPTY)?;
    Ok(slot_of(alloc, &plan, &[1], words.as_slice())?)
}

#[test]
fn an_empty_slot_is_renewed(rt: HostRuntime) -> Result<(), Fail> {
    let empty = Some(OldSlot::Empty { position: 1 });
    assert!(rt; read_old_slot(OLD_EMPTY) == empty);
    assert_eq!(rt; renewed_slot(rt.alloc())?, Some(1 << 42));
    Ok(())
}
