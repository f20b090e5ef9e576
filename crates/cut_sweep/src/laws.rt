//! What a cut of a charge is.

ghost use Rattle.cut_sweep.specs.Cut.{CutsTake, AllIsWhole, CutsAreJobs};

/// A charge that is cut to its first so many turns begins as the charge does, and makes just these turns: an item may be cut in its middle.
/// A job whose first charge is cut is a job, and cut to as many turns as the charge lists it is the job that it was.
pub fn cuts_take()
    ensures take { CutsTake }
    ensures whole { AllIsWhole }
    ensures jobs { CutsAreJobs }
{}
