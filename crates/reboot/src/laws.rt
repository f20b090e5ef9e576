//! What a boot is for.

ghost use Rattle.reboot.specs.Bounded.{EveryBootEnds};
ghost use Rattle.reboot.specs.Laws.{BootBegins, BootKeeps, BootDrifts, BootShowsStamp, BootFindsOne, BootEnds};

/// A boot of any accepted program, from any words that stand for a state, and with any accesses of sources and clock
/// between its own. Each access is within its range and allowed, the entry that it makes is legal, and the words stand for the state
/// after it. The stamp is the greatest first word of a header of all threads that were passed, and at most one thread has a finished
/// event, where it was so before. At the end no finished event is left unreleased, and the stamp is the number of commits.
pub fn boot_releases()
    ensures begins { BootBegins }
    ensures keeps { BootKeeps }
    ensures drifts { BootDrifts }
    ensures stamp { BootShowsStamp }
    ensures one { BootFindsOne }
    ensures ends { BootEnds }
{}

/// How long a boot takes at most, of any accepted program, from any words that stand for a state, and with any accesses of sources and
/// clock between its own: four words of each thread, and the acknowledgement and the release of the one event that may be finished.
pub fn boots_end()
    ensures ends { EveryBootEnds }
{}
