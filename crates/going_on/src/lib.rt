//! Going on from an image: the same as never having stopped.
#![tactic(auto)]

ghost use Rattle.going_on.specs.GoesOn.{EveryJobDivides, EndsAsWhole, GoesAsWhole, StartsFromWhole, ContinuesWhole, StandsAsWhole, AreJobs};

/// The law of going on. A job is divided at a charge: a first run has the charges up to there, and a second one begins at the words that the
/// first one left, with the state that is read off them, the charges behind, and the readings that the state hasn't settled. Every job can be
/// divided at any of its charges.
///
/// The second run ends with the words with which the run of the undivided job ends, and journal and records of the two runs, one behind the
/// other, are those of the undivided run. So it is after each cut and turn, and each actor makes the same access next, finds the same word
/// and adds the same entry.
///
/// The state with which the second run begins is the one that the undivided run has there, without what a cut loses of it. Whatever journal
/// follows that state legally follows the first run's journal legally, and leads to the same state, but for what a cut loses. Each part that
/// has a charge is a job, the second one where its words aren't worn; then the states after each cut and turn are the same, but for that too.
pub fn runs_go_on()
    ensures divides { EveryJobDivides }
    ensures end { EndsAsWhole }
    ensures moments { GoesAsWhole }
    ensures start { StartsFromWhole }
    ensures journals { ContinuesWhole }
    ensures states { StandsAsWhole }
    ensures jobs { AreJobs }
{}
