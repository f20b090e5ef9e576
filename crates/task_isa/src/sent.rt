//! What a task sends.

use ink_base::PipeId;

/// A value that a task sends to a pipe.
#[derive(Clone, Copy)]
pub struct Sent {
    pub pipe: PipeId,
    pub value: u32,
}
