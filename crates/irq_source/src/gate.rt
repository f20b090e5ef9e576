//! What may hold actors back.
use ink_base::Actor;

/// Is passed before each access of an actor. It returns nothing, so that no answer depends on it.
pub trait Gate {
    /// The actor is about to make an access. A source has made `done` publications, the kernel `done` commits.
    fn pass(&self, actor: Actor, done: u32);
}

/// Holds nobody.
#[derive(Clone, Copy, Debug)]
pub struct NoGate;

impl Gate for NoGate {
    fn pass(&self, _actor: Actor, _done: u32) {}
}
