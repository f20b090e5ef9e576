//! How a task sets a timer.

use ink_base::TimerId;

/// A timer's new setting: the tick at which it is due, none where it is stopped, and its period. Of a stopped timer the period is 0
/// and isn't applied.
#[derive(Clone, Copy)]
pub struct TimerSet {
    pub timer: TimerId,
    pub due: Option<u64>,
    pub period: u32,
}
