//! What holds of the faults of a section.

ghost use Rattle.task_asm.specs.FaultLaw.{FaultsStay};

/// A fault that `read_program` answers is that of each text with the same lines up to and with the fault's: what follows is never
/// judged before it. `BadTarget` alone is no such fault, since a target may come later, and is told once all lines are read.
pub fn faults_stay()
    ensures { FaultsStay }
{}
