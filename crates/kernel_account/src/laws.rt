//! Why an account can be kept before the events are known.

ghost use Rattle.kernel_account.specs.Follows.{FirstBeside, EveryEntryFollows, EveryCutFollows, EveryChargeGrows, EveryChargeBegins};

/// The law of the account. A state of the never-cut kernel whose queues hold what the kernel has seen so far stands beside the account of
/// the same entries, whatever events the queues are to have, if only those that the state holds are among them in their places. From the
/// first state on it does; each entry of the kernel that is legal in the state is legal in the account, and leaves them beside each other;
/// so does a cut. An account grows at its end by an entry that is legal there, and by a charge.
pub fn accounts_follow()
    ensures first { FirstBeside }
    ensures entries { EveryEntryFollows }
    ensures cuts { EveryCutFollows }
    ensures grows { EveryChargeGrows }
    ensures begins { EveryChargeBegins }
{}
