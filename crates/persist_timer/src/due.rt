//! A timer by its word: 0 for off, else the tick at which it is due, plus 1.
ghost use Rattle.std.specs.Prelude.{◌≡◌, ◌≤◌, ◌<◌, ◌^◌};
ghost use Rattle.fram_words.specs.Held.{due_of};
ghost use Rattle.persist_timer.specs.Due as due;

use fram_words::{due_word, read_due};

/// The tick at which a timer with this word is due; none exactly where the word is 0, and the timer is off.
pub fn due_at(word: u64) -> Option<u64>
    ensures { result ≡ due_of word }
{
    read_due(word)
}

/// Whether a timer with this word is due at a time in ticks: at or before it.
pub fn is_due(word: u64, time: u64) -> bool
    ensures { result ≡ due.is_due word time }
{
    word > 0 && word - 1 <= time
}

/// The word of a due timer after its event was consumed: one period of ticks later, or off where the period is 0.
pub fn after_service(word: u64, period: u64) -> u64
    requires set { 1 ≤ word }
    requires word { word ≤ 2 ^ 48 }
    requires period { period < 2 ^ 32 }
    ensures { result ≡ due.after_service word period }
{
    if period == 0 { 0 } else { word + period }
}

/// The word of a timer that is set at a time in ticks, to be due after a delay.
pub fn armed(time: u64, delay: u32) -> u64
    requires { time < 2 ^ 48 }
    ensures { result ≡ due.armed time delay }
{
    due_word(Some(time + delay as u64))
}

/// Whether a chain with its first commit at `first` has run for more ticks, at a time, than it may.
pub fn is_expired(expires: u32, first: u64, time: u64) -> bool
    requires { first ≤ time }
    ensures { result ≡ due.is_expired expires first time }
{
    time - first > expires as u64
}
