//! What a scan is for.

ghost use Rattle.priority_sched.specs.Bounded.{EveryScanEnds};
ghost use Rattle.priority_sched.specs.Laws.{ScanBegins, ScanKeeps, ScanDrifts, ScanEnds};

/// A scan of any accepted program, from any words that stand for a state without finished events, and with any accesses of sources and
/// clock between its own. While fewer than 2^32 - 1 commits are made, each access is within its range and allowed, the entry that it
/// makes is legal, and the words stand for the state after it. At the end the pick is the pending event of the thread of the greatest
/// priority that has one, with the words that tell how it is consumed: a running chain's event, a queue's, a pipe's item or a timer's.
/// Or no thread has one.
pub fn scan_picks()
    ensures begins { ScanBegins }
    ensures keeps { ScanKeeps }
    ensures drifts { ScanDrifts }
    ensures ends { ScanEnds }
{}

/// How long a scan takes at most, of any program and whatever words it finds: from the load of the clock to the access that ends it, four
/// words of each thread, three of each pipe, one of each timer, and two more of a pick.
pub fn scans_end()
    ensures ends { EveryScanEnds }
{}
