//! Why the words at the end are right.

ghost use Rattle.live_words.specs.Ends.{EveryEnd};

/// The law of the end. Where the actors of a job have come back, and the set of queues is closed, a record of what they have left tells of
/// the end rightly: the events that the kernel found are among the record's, so its account is legal over them; and the words stand for
/// the state after the account, with what each source has accepted and settled and the clock after all ticks.
pub fn ends_stand()
    ensures { EveryEnd }
{}
