//! What a run of the board keeps.

ghost use Rattle.kernel_core.specs.Answered.{EveryChargePaced};
ghost use Rattle.kernel_core.specs.Costed.{EveryPickCommits};
ghost use Rattle.kernel_core.specs.Moves.{EveryPrefixStands, ImagePrefixesStand, OneIsFinished};
ghost use Rattle.kernel_core.specs.Scanned.{EveryCommitScanned};
ghost use Rattle.kernel_core.specs.Settled.{SourcesSettle};

/// The law of the board, for every accepted program, any readings within the limits, any first words that stand for a state at which a
/// run can begin, and every order of turns of sources, clock and kernel and of cuts. After each access and each cut the one journal kept
/// so far is legal, and the words of the FRAM stand for the never-cut kernel after it and are an image of the program, which another run
/// can begin at unless it is worn. The first image has such words. At most one thread has a finished event.
///
/// No pick outlives a cut: of every program, from any words on and in any such order, each commit stands behind a scan of the same charge.
///
/// In each charge a source of a queue of N places that makes at least N + 6 + 5 m + 4 x accesses settles at least m readings, x being the
/// events that the other sources of its queue push in that charge: it has m Push or Skip entries there. One that has no reading left makes
/// no access.
pub fn boards_stand()
    ensures stands { EveryPrefixStands }
    ensures image { ImagePrefixesStand }
    ensures finished { OneIsFinished }
    ensures scanned { EveryCommitScanned }
    ensures settled { SourcesSettle }
{}

/// The size of a charge, for every accepted program, any readings within the limits, any first words that stand for a state at which a
/// run can begin, and every order of turns of sources, clock and kernel and of cuts. A charge with the kernel accesses of a boot and of
/// so many rounds has as many answered scans: before the next scan a commit follows, or looks at all threads follow after which none has
/// a pending event. A charge with more than those of a boot has a scan.
pub fn charges_answer()
    ensures paced { EveryChargePaced }
{}

/// When a pick commits, under the same conditions. Where a scan has ended with the pick of a thread, as many accesses of the kernel in the
/// same charge remain as the service costs by the meaning of its task, whatever turns of sources and clock lie between; the commit is the
/// last of them. `TaskMachine::remaining` tells how many are left.
pub fn picks_commit()
    ensures commits { EveryPickCommits }
{}
