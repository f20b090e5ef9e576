//! What the verdicts say.

ghost use Rattle.ink_audit.specs.Laws.{EveryTextIsRight, NoOtherIsRight, NoTextIsWrong, OneVerdict};

/// What is known of the verdicts on a claim. For every job whose threads have names, as each thread of a program has, the verdict is Yes for
/// what a run prints that writes a legal journal, and no other verdict is one on such a text. Nothing else has the verdict Yes, for any job, and
/// no claim has two verdicts.
pub fn verdicts_are_right()
    ensures right { EveryTextIsRight }
    ensures never_wrong { NoTextIsWrong }
    ensures only { NoOtherIsRight }
    ensures one { OneVerdict }
{}
