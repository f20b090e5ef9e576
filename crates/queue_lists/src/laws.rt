//! Why the lists are right.

ghost use Rattle.queue_lists.specs.Accounts.{EveryListTells, EveryNumberTells, EverySourceTells};
ghost use Rattle.queue_lists.specs.Laws.{EveryEndFits, EveryAccountIsOver, EveryEndIsNumbered, EveryQueueIsOfItsEntries, EveryEventIsRight, EveryRefusalIsRight, EverySourceSettles};
ghost use Rattle.queue_lists.specs.Tellings.{EveryAccountTells};

/// The law of the lists. Where a set of queues is closed and a list of what a queue accepted is that of its entries, the events of the
/// list, by the number of those of their own source before them, are the events of the entries; a source has as many of them as it has
/// published; and its SRC, its ACK and the events that are not released tell how many readings it has accepted and settled. The source's
/// own lists are the account of its events: each is a published reading with its value, they rise, each settled reading is an event's or a
/// refused one, and the refusals part the events.
pub fn queues_are_accounted()
    ensures events { EveryListTells }
    ensures numbers { EveryNumberTells }
    ensures sources { EverySourceTells }
    ensures readings { EveryAccountTells }
{}

/// The law of what is gathered. Where a set of queues is closed and these are the ends of a job's sources, their lists can be put together
/// in the room of the job, and each source's are its account. A record that has them put together tells the queues rightly: each queue has
/// the entries of its queue, and the SRC, the ACK and the events of a source tell how many readings it has accepted and settled; where the
/// sources publish and are refused in their turns, its events and refusals are right; and where a source settles its readings in time, the
/// record tells so.
pub fn gathered_are_accounted()
    ensures fits { EveryEndFits }
    ensures accounts { EveryAccountIsOver }
    ensures numbers { EveryEndIsNumbered }
    ensures entries { EveryQueueIsOfItsEntries }
    ensures events { EveryEventIsRight }
    ensures refusals { EveryRefusalIsRight }
    ensures settled { EverySourceSettles }
{}
