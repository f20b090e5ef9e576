//! What the words of a board tell of its state, in numbers.

ghost use Rattle.std.specs.Prelude.{◌≡◌, ◌+◌, ◌<◌, length};
ghost use Rattle.fram_words.specs.Header.{IsHeader, word_of};
ghost use Rattle.fram_words.specs.Shape.{memory_of};
ghost use Rattle.fram_words.specs.Steps.{place_of};
ghost use Rattle.thread_state.specs.Pages.{committed};
ghost use Rattle.push_core.specs.Slots.{slot_in};
ghost use Rattle.ink_layout.specs.Shape.{IsOnBoard, shape_of};
ghost use Rattle.cut_sweep.specs.kept.Told.{told_row, full_slots, is_full, AreTold};

use fram_words::{Fram, Header, Place};
use ink_base::ThreadId;
use ink_layout::Plan;
use ink_report::SweepRow;
use push_core::{Slot, read_slot};
use thread_state::place_in;

/// The numbers that the words tell behind so many turns: the outputs that the threads count, the greatest of their stamps, which is the
/// number of commits, and the slots that hold an event.
pub(crate) fn told_row(plan: &Plan, words: &Fram, cut: u32) -> SweepRow
    requires { AreTold plan.now.accepted (memory_of (shape_of plan.now.accepted) words.now) }
    ensures { result ≡ told_row plan.now.accepted (memory_of (shape_of plan.now.accepted) words.now) cut (length plan.now.accepted.threads) }
{
    let mut row = SweepRow {
        cut,
        outputs: 0,
        commits: 0,
        held: 0,
    };
    for t in 0..plan.program().threads.len() {
        row = with_thread(plan, words, row, ThreadId(t as u8));
    }
    row
}

// The row of the threads before one, with what this one tells.
fn with_thread(plan: &Plan, words: &Fram, row: SweepRow, thread: ThreadId) -> SweepRow
    requires known { thread.0 < length plan.now.accepted.threads }
    requires told { AreTold plan.now.accepted (memory_of (shape_of plan.now.accepted) words.now) }
    requires before { row ≡ told_row plan.now.accepted (memory_of (shape_of plan.now.accepted) words.now) row.cut thread.0 }
    ensures { result ≡ told_row plan.now.accepted (memory_of (shape_of plan.now.accepted) words.now) row.cut (thread.0 + 1) }
{
    // The program is accepted: so few threads have no more outputs than fit.
    let _program = plan.program();
    let outputs = header_word(plan, words, thread, Header::Outputs) as u32;
    let stamp = header_word(plan, words, thread, Header::Stamp) as u32;
    SweepRow {
        cut: row.cut,
        outputs: row.outputs + outputs,
        commits: row.commits.max(stamp),
        held: row.held + full_slots(plan, words, thread),
    }
}

// How many slots of the thread's queue hold an event.
fn full_slots(plan: &Plan, words: &Fram, thread: ThreadId) -> u32
    requires { thread.0 < length plan.now.accepted.threads }
    ensures { result ≡ full_slots plan.now.accepted (memory_of (shape_of plan.now.accepted) words.now) thread.0 }
{
    let places = plan.program().threads.as_slice()[thread.0 as usize].queue;
    let mut full = 0;
    for index in 0..places as u32 {
        full += is_full(word_at(plan, words, Place::Slot { thread, index })) as u32;
    }
    full
}

// Whether a slot with this word holds an event.
fn is_full(word: u64) -> bool
    ensures { result ≡ is_full (slot_in word) }
{
    match read_slot(word) {
        Some(Slot::Full { .. }) => true,
        _ => false,
    }
}

// A word of the header in the committed copy of a thread's block.
fn header_word(plan: &Plan, words: &Fram, thread: ThreadId, header: Header) -> u64
    requires known { thread.0 < length plan.now.accepted.threads }
    requires header { IsHeader header }
    ensures { result ≡ committed (memory_of (shape_of plan.now.accepted) words.now) thread.0 (word_of header) }
{
    let mask = word_at(plan, words, Place::Commit { thread });
    word_at(plan, words, place_in(thread, mask, header.word()))
}

// The word of a place of the program's board.
fn word_at(plan: &Plan, words: &Fram, place: Place) -> u64
    requires { IsOnBoard plan.now.accepted (place_of place) }
    ensures { result ≡ memory_of (shape_of plan.now.accepted) words.now (place_of place) }
{
    // The layout is the program's own.
    let _program = plan.program();
    words.word(plan.address(place))
}
