//! What a task leaves behind.

use crate::outcome::Outcome;
use crate::sent::Sent;
use crate::timer_set::TimerSet;
use sqlite_items::Items;

/// What a task leaves behind: how it ended, its thread's state, what it sent, put out and set, each in order, and how many instructions
/// it executed. With a trap the state is the one that it began with, and the three lists are empty.
#[derive(Drop)]
pub struct TaskEnd {
    pub outcome: Outcome,
    pub state: Items<u32>,
    pub sends: Items<Sent>,
    pub outs: Items<u32>,
    pub timers: Items<TimerSet>,
    pub executed: u32,
}
