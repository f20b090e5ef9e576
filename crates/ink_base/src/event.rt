//! What starts the service of a thread.

use crate::ids::{PipeId, SourceId, TimerId};

/// Where an event comes from.
#[derive(Clone, Copy, Debug, PartialEq, Eq)]
pub enum Origin {
    /// A source, and the number of its accepted events before this one, modulo 64.
    Source { source: SourceId, count: u8 },
    /// A pipe, and the number of its items before this one.
    Pipe { pipe: PipeId, item: u32 },
    /// A timer, and the tick at which it was due.
    Timer { timer: TimerId, deadline: u64 },
}

/// An event: its origin and its value. The value of a timer's event is the low 32 bits of its deadline.
#[derive(Clone, Copy, Debug, PartialEq, Eq)]
pub struct Event {
    pub origin: Origin,
    pub value: u32,
}
