//! What a charge lists.

use ink_base::Actor;

/// So many turns of one actor.
#[derive(Clone, Copy)]
pub struct Item {
    pub actor: Actor,
    pub count: u32,
}
