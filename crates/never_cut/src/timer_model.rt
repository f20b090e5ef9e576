//! A timer of the never-cut kernel.

/// A timer: the tick at which it is due, none where it is off, and its period in ticks, 0 for a one-shot.
#[derive(Clone, Copy)]
pub struct TimerModel {
    pub due: Option<u64>,
    pub period: u32,
}
