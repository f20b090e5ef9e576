//! How many turns a charge lists for an actor.
ghost use Rattle.std.specs.Prelude.{◌≡◌, ◌≤◌};
ghost use Rattle.job_parts.specs.Job.{item_turns};
ghost use Rattle.live_account.specs.Turns.{is_same, turns_for};
ghost use Rattle.live_account.specs.Turns.{turns_in as turns_of_item};

use ink_base::Actor;
use ink_base::limits::TURNS;
use job_parts::{Charge, Item};

// Whether both are the same actor.
fn is_same(one: Actor, other: Actor) -> bool
    ensures { result ≡ is_same one other }
{
    match (one, other) {
        (Actor::Kernel, Actor::Kernel) | (Actor::Clock, Actor::Clock) => true,
        (Actor::Source(one), Actor::Source(other)) => one.0 == other.0,
        _ => false,
    }
}

// The turns of an item, where it is one of the actor.
fn turns_in(actor: Actor, item: Item) -> u32
    ensures { result ≡ turns_of_item actor item }
{
    if is_same(item.actor, actor) {
        item.count
    } else {
        0
    }
}

/// The turns that a charge lists for an actor.
pub(crate) fn turns_for(actor: Actor, charge: &Charge) -> u32
    requires { item_turns charge.now.items ≤ TURNS }
    ensures { result ≡ turns_for actor charge.now }
{
    let mut turns = 0;
    for item in charge.items.as_slice() {
        turns += turns_in(actor, *item);
    }
    turns
}
