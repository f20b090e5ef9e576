//! What every legal journal keeps, from any state at which a run can begin.

ghost use Rattle.never_cut.specs.Devices.{EveryDeviceTold};
ghost use Rattle.never_cut.specs.Reached.{EveryEntryKeeps, EveryJournalTells, EveryOtherFollows, EveryPositionFits, EveryStateHasRoom, EveryStateSound, EveryStateStarts};

/// What is known of the states that a legal journal reaches, for every accepted program. They are sound, and so is what one legal entry
/// makes of a sound state. Positions of queues are at most the greatest tail. From a state at which a run can begin there is room for a
/// further entry, so that an open replay can go on, and the journal tells what `replay_from` says of the lists that it accepts. Where the
/// counts have room for a list and for one more replay behind it, a run can begin again at the state after it. A push, a refusal, a skip
/// and a tick change only what the kernel leaves to others.
pub fn journals_keep()
    ensures sound { EveryStateSound }
    ensures step { EveryEntryKeeps }
    ensures positions { EveryPositionFits }
    ensures room { EveryStateHasRoom }
    ensures again { EveryStateStarts }
    ensures tells { EveryJournalTells }
    ensures others { EveryOtherFollows }
{}

/// On words that stand for a state, what event_pipe and persist_timer tell of counts and words is what the never-cut kernel tells of the
/// state: whether a pipe has an item and room, where its items stand, whether a timer is due, what its service leaves and what setting it
/// makes, and whether a chain has expired.
pub fn devices_stand()
    ensures { EveryDeviceTold }
{}
