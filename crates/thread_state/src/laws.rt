//! What the two copies are for.

ghost use Rattle.thread_state.specs.Calls.{OneStoreCommits, SixteenCopy};
ghost use Rattle.thread_state.specs.Puts.{PutsAreCalls};

/// The law of the two copies, over any calls of a `BufferMachine` that may be made in their turn, from `begin` on, and any memory: a read
/// answers the last that was written, or else the committed word; the committed copy is as it was; and the one store of `commit`
/// makes all that a read would answer the committed copy. No word but the thread's pages is changed. A clean page is copied by
/// sixteen accesses, and is dirty after them.
///
/// So it is with the puts that a task makes of `Buffer` alone, access by access: a put of a word is the calls that make its page ready,
/// copy it where it is clean, and write the word.
pub fn two_copies()
    ensures one_store { OneStoreCommits }
    ensures sixteen { SixteenCopy }
    ensures puts { PutsAreCalls }
{}
