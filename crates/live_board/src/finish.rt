//! What a live board leaves behind.

ghost use Rattle.std.specs.Prelude.{◌≡◌, ◌≤◌, [], length, vec_capacity};
ghost use Rattle.live_account.specs.Record.{IsLiveRecord};
ghost use Rattle.live_board.specs.kept.Boards.{IsBoardAfter};
ghost use Rattle.live_board.specs.kept.Ends.{AreLeft};
ghost use Rattle.live_board.specs.kept.Parts.{IsLiveRoomOf};

use crate::parts::{LiveParts, LiveRoom};
use event_queue::SourceSeat;
use irq_source::{SourceActor, SourceParts};
use kernel_actor::{ClockActor, KernelParts};
use live_account::LiveRecord;
use live_words::{ends_stand, final_words};
use queue_lists::{Gathered, SourceLists, gather, gathered_are_accounted};
use sqlite_items::Items;

// Puts what each source leaves into the room for it.
fn put_ends(
    sources: Vec<SourceActor>,
    seats: &mut Vec<SourceSeat>,
    srcs: &mut Vec<u64>,
    ends: &mut Vec<SourceLists>,
)
    requires empty { (seats.old.items ≡ []) × (srcs.old.items ≡ []) × (ends.old.items ≡ []) }
    requires seats { length sources.items ≤ vec_capacity seats.old }
    requires srcs { length sources.items ≤ vec_capacity srcs.old }
    requires ends { length sources.items ≤ vec_capacity ends.old }
    ensures { AreLeft (length sources.items) sources.items seats.new.items srcs.new.items ends.new.items }
{
    for source in sources {
        let SourceParts {
            seat,
            src,
            accepted,
            refused,
        } = source.into_parts();
        seats.push_reserved(seat);
        srcs.push_reserved(src);
        ends.push_reserved(SourceLists::new(accepted, refused));
    }
}

/// The record of a live board all of whose charges are over. It takes no memory.
pub(crate) fn finish_live(parts: LiveParts) -> LiveRecord
    requires board { IsBoardAfter parts.job parts.set (length parts.job.charges) parts.sources.items parts.kernel parts.clock }
    requires room { IsLiveRoomOf parts.job parts.room }
    ensures { IsLiveRecord parts.job result }
{
    let LiveParts {
        job,
        set,
        sources,
        kernel,
        clock,
        room,
    } = parts;
    let LiveRoom {
        mut seats,
        mut srcs,
        mut ends,
        lists,
    } = room;
    put_ends(sources, &mut seats, &mut srcs, &mut ends);
    let KernelParts {
        plan,
        seat,
        words,
        account,
    } = kernel.into_parts();
    let ClockActor { seat: clock_seat } = clock;
    let closed = set.finish(seat, seats, clock_seat);
    let words = final_words(&plan, words, &closed, srcs.as_slice());
    gathered_are_accounted();
    let Gathered {
        accepted,
        charges,
        refused,
    } = gather(&job, ends.as_slice(), lists);
    ends_stand();
    LiveRecord {
        job,
        accepted,
        charges,
        refused,
        kernel: Items::from_vec(account),
        words: Items::from_vec(words),
    }
}
