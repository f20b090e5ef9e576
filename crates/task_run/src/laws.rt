//! What a task leaves on a board.

ghost use Rattle.task_run.specs.Bounded.{EveryServiceEnds};
ghost use Rattle.task_run.specs.Knows.{EveryTaskCommits, EveryTaskOutlasts, EveryTaskFits, EveryPickBegins};
ghost use Rattle.task_run.specs.Remaining.{EveryPickCosts, EveryAccessCounts, EveryLastCommits, EveryCommitIsLast, EveryCountOutlasts, EveryServiceGoesOn, EveryRangeGoesOn};

/// The law of the machine that serves a pick, for every accepted program, on words that stand for a state of the never-cut kernel.
/// Until the commit each access leaves the committed copy of every thread, and the state; the store of the commit word is a legal
/// commit, and leaves words that stand for what the commit makes of the state; the store of the empty slot is a legal release.
/// What the registers know outlasts any accesses of sources and clock in between. The registers are in the ranges that `want` and
/// `take` ask for.
pub fn tasks_commit()
    ensures begins { EveryPickBegins }
    ensures commits { EveryTaskCommits }
    ensures outlasts { EveryTaskOutlasts }
    ensures fits { EveryTaskFits }
{}

/// The law of the accesses that remain of a service, for every accepted program. At the pick they are as many as the meaning of the task
/// costs; each access up to the store of the commit word is one of them, and that store is the last; accesses of sources and clock in
/// between change nothing. On words that stand for a state of the never-cut kernel, each of them can be made, and so where each word
/// that is found lies in the range of its place.
pub fn services_cost()
    ensures costs { EveryPickCosts }
    ensures counts { EveryAccessCounts }
    ensures last { EveryLastCommits }
    ensures only { EveryCommitIsLast }
    ensures outlasts { EveryCountOutlasts }
    ensures goes_on { EveryServiceGoesOn }
    ensures in_range { EveryRangeGoesOn }
{}

/// How long a service takes at most, for every accepted program and whatever words it finds, each in the range of its place: two copies
/// of the pages of the thread's block, six accesses for each instruction that the task's limit allows, the event's words twice, and the
/// end, the commit and the release.
pub fn services_end()
    ensures ends { EveryServiceEnds }
{}
