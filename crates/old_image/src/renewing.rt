//! The change of an image of the earlier form to today's words.

ghost use Rattle.std.specs.Prelude.{◌≡◌, ◌+◌, ◌^◌, ◌<◌, ◌≤◌, length, take, IfOk};
ghost use Rattle.fram_words.specs.Changes.{Becomes};
ghost use Rattle.fram_words.specs.Header as header;
ghost use Rattle.fram_words.specs.Held as held;
ghost use Rattle.thread_state.specs.Pages.{committed};
ghost use Rattle.fram_words.specs.Steps.{place_of};
ghost use Rattle.push_core.specs.Slots.{empty_word};
ghost use Rattle.prog_check.specs.Lookup.{source_thread, thread_def};
ghost use Rattle.ink_layout.specs.Shape.{IsOnBoard, shape_of, words_of};
ghost use Rattle.never_cut.specs.Image.{IsImage};
ghost use Rattle.image_checks.specs.Board.{board};
ghost use Rattle.old_image.specs.Told as told;
ghost use Rattle.old_image.specs.Image.{IsOldImage, HasSourceChain};
ghost use Rattle.old_image.specs.Worn.{IsFresh};
ghost use Rattle.old_image.specs.Renewed.{IsRenewed, StayFresh, origin_place, renewed_word, without_reading as emptied};
ghost use Rattle.old_image.specs.kept.Stages.{OriginsRenewed, QueuesRenewed, SlotsRenewed, SourcesRenewed};

use crate::held::{old_held_count, old_held_event, old_next, own_before, own_held};
use crate::origins::{has_source_chain, without_reading};
use crate::queue::old_released;
use crate::queues::header_place;
use fram_words::{Header, Place, src_word};
use image_told::{header_word, places, slot_place};
use ink_base::{NoMemory, SourceId, ThreadId};
use ink_layout::Plan;
use push_core::{empty, full};
use std::alloc::Global;

/// Today's words of an image of the earlier form that isn't worn. An event that is held gets as count its place among the held events of its
/// source, from 0; a slot without one is empty for its position; SRC gets the number of those events and the next reading, ACK is 0, and
/// the event of a source that a running chain has gets count 0. Every other word stays.
pub fn renew(alloc: Global, plan: &Plan, words: &[u64]) -> Result<Vec<u64>, NoMemory>
    requires count { length words.now ≡ words_of (shape_of plan.now.accepted) }
    requires image { IsOldImage plan.now.accepted (board plan.now.accepted words.now) }
    requires fresh { IsFresh plan.now.accepted (board plan.now.accepted words.now) }
    ensures count { IfOk result (λ new. length new.items ≡ length words.now) }
    ensures changed { IfOk result (λ new. IsRenewed plan.now.accepted (board plan.now.accepted words.now) (board plan.now.accepted new.items)) }
    ensures image { IfOk result (λ new. IsImage plan.now.accepted (board plan.now.accepted new.items)) }
    ensures fresh { IfOk result (λ new. StayFresh plan.now.accepted (board plan.now.accepted words.now) (board plan.now.accepted new.items)) }
{
    let mut new = words.to_vec(alloc)?;
    renew_copy(plan, words, new.as_mut_slice());
    Ok(new)
}

// The same, over a copy of the words.
fn renew_copy(plan: &Plan, words: &[u64], new: &mut [u64])
    requires count { length words.now ≡ words_of (shape_of plan.now.accepted) }
    requires image { IsOldImage plan.now.accepted (board plan.now.accepted words.now) }
    requires fresh { IsFresh plan.now.accepted (board plan.now.accepted words.now) }
    requires copied { new.old ≡ words.now }
    ensures changed { IsRenewed plan.now.accepted (board plan.now.accepted words.now) (board plan.now.accepted new.new) }
    ensures image { IsImage plan.now.accepted (board plan.now.accepted new.new) }
    ensures fresh { StayFresh plan.now.accepted (board plan.now.accepted words.now) (board plan.now.accepted new.new) }
{
    // The program is accepted, which the checks of an image rest on.
    let _program = plan.program();
    renew_all(plan, words, new);
}

// The sources, the origins of running chains, and the queues.
fn renew_all(plan: &Plan, words: &[u64], new: &mut [u64])
    requires count { length words.now ≡ words_of (shape_of plan.now.accepted) }
    requires image { IsOldImage plan.now.accepted (board plan.now.accepted words.now) }
    requires fresh { IsFresh plan.now.accepted (board plan.now.accepted words.now) }
    requires copied { new.old ≡ words.now }
    ensures { IsRenewed plan.now.accepted (board plan.now.accepted words.now) (board plan.now.accepted new.new) }
{
    renew_sources(plan, words, new);
    renew_origins(plan, words, new);
    renew_queues(plan, words, new);
}

// The words of the sources.
fn renew_sources(plan: &Plan, words: &[u64], new: &mut [u64])
    requires count { length words.now ≡ words_of (shape_of plan.now.accepted) }
    requires fresh { IsFresh plan.now.accepted (board plan.now.accepted words.now) }
    requires size { length new.old ≡ words_of (shape_of plan.now.accepted) }
    ensures { let program = plan.now.accepted in
        SourcesRenewed program (board program words.now) (board program new.old) (board program new.new) (length program.sources) }
{
    for i in 0..plan.program().sources.len() {
        let source = SourceId(i as u8);
        let src = renewed_src(plan, words, source);
        put(plan, new, Place::Src { source }, src);
        put(plan, new, Place::Ack { source }, 0);
    }
}

// The new word of SRC: how many events of the source are held, and its next reading.
fn renewed_src(plan: &Plan, words: &[u64], source: SourceId) -> u64
    requires count { length words.now ≡ words_of (shape_of plan.now.accepted) }
    requires known { source.0 < length plan.now.accepted.sources }
    requires fresh { IsFresh plan.now.accepted (board plan.now.accepted words.now) }
    ensures { let memory = board plan.now.accepted words.now in
        result ≡ held.src_word (told.own_old source.0 (told.old_held_for plan.now.accepted memory source.0)) (told.old_next plan.now.accepted memory source.0) }
{
    let next = old_next(plan, words, source);
    src_word(own_held(plan, words, source), next as u32)
}

// The origins of running chains of sources' events.
fn renew_origins(plan: &Plan, words: &[u64], new: &mut [u64])
    requires count { length words.now ≡ words_of (shape_of plan.now.accepted) }
    requires size { length new.old ≡ words_of (shape_of plan.now.accepted) }
    ensures { let program = plan.now.accepted in
        OriginsRenewed (board program words.now) (board program new.old) (board program new.new) (length program.threads) }
{
    for t in 0..plan.program().threads.len() {
        let thread = ThreadId(t as u8);
        if has_source_chain(plan, words, thread) {
            renew_origin(plan, words, new, thread);
        }
    }
}

// The origin in a thread's committed copy.
fn renew_origin(plan: &Plan, words: &[u64], new: &mut [u64], thread: ThreadId)
    requires count { length words.now ≡ words_of (shape_of plan.now.accepted) }
    requires size { length new.old ≡ words_of (shape_of plan.now.accepted) }
    requires known { thread.0 < length plan.now.accepted.threads }
    ensures { let memory = board plan.now.accepted words.now in
        Becomes (origin_place memory thread.0) (emptied (committed memory thread.0 header.origin)) (board plan.now.accepted new.old) (board plan.now.accepted new.new) }
{
    let word = header_word(plan, words, thread, Header::Origin);
    let place = header_place(plan, words, thread, Header::Origin);
    put(plan, new, place, without_reading(word));
}

// The slots of all queues.
fn renew_queues(plan: &Plan, words: &[u64], new: &mut [u64])
    requires count { length words.now ≡ words_of (shape_of plan.now.accepted) }
    requires image { IsOldImage plan.now.accepted (board plan.now.accepted words.now) }
    requires size { length new.old ≡ words_of (shape_of plan.now.accepted) }
    ensures { let program = plan.now.accepted in
        QueuesRenewed program (board program words.now) (board program new.old) (board program new.new) (length program.threads) }
{
    for t in 0..plan.program().threads.len() {
        renew_queue(plan, words, new, ThreadId(t as u8));
    }
}

// The slots of a thread's queue.
fn renew_queue(plan: &Plan, words: &[u64], new: &mut [u64], thread: ThreadId)
    requires count { length words.now ≡ words_of (shape_of plan.now.accepted) }
    requires image { IsOldImage plan.now.accepted (board plan.now.accepted words.now) }
    requires size { length new.old ≡ words_of (shape_of plan.now.accepted) }
    requires known { thread.0 < length plan.now.accepted.threads }
    ensures { let program = plan.now.accepted in
        SlotsRenewed program (board program words.now) (board program new.old) (board program new.new) thread.0 (thread_def program thread.0).queue }
{
    for k in 0..places(plan, thread) as u32 {
        let position = position_behind(plan, words, thread, k);
        let word = renewed_slot(plan, words, thread, k);
        put(plan, new, slot_place(plan, thread, position as u64), word);
    }
}

// The new word of the slot so many places behind the first.
fn renewed_slot(plan: &Plan, words: &[u64], thread: ThreadId, place: u32) -> u64
    requires count { length words.now ≡ words_of (shape_of plan.now.accepted) }
    requires image { IsOldImage plan.now.accepted (board plan.now.accepted words.now) }
    requires known { thread.0 < length plan.now.accepted.threads }
    requires inside { place < (thread_def plan.now.accepted thread.0).queue }
    ensures held { let memory = board plan.now.accepted words.now in
        place < length (told.old_held plan.now.accepted memory thread.0) →
        result ≡ renewed_word (told.old_released plan.now.accepted memory thread.0 + place) (told.old_held plan.now.accepted memory thread.0) place }
    ensures empty { let memory = board plan.now.accepted words.now in
        length (told.old_held plan.now.accepted memory thread.0) ≤ place → result ≡ empty_word (told.old_released plan.now.accepted memory thread.0 + place) }
{
    if place < old_held_count(plan, words, thread) {
        renewed_held(plan, words, thread, place)
    } else {
        empty(position_behind(plan, words, thread, place))
    }
}

// The new word of a held event: its count is the number of its source's events before it.
fn renewed_held(plan: &Plan, words: &[u64], thread: ThreadId, place: u32) -> u64
    requires count { length words.now ≡ words_of (shape_of plan.now.accepted) }
    requires image { IsOldImage plan.now.accepted (board plan.now.accepted words.now) }
    requires known { thread.0 < length plan.now.accepted.threads }
    requires held { place < length (told.old_held plan.now.accepted (board plan.now.accepted words.now) thread.0) }
    ensures { let memory = board plan.now.accepted words.now in
        result ≡ renewed_word (told.old_released plan.now.accepted memory thread.0 + place) (told.old_held plan.now.accepted memory thread.0) place }
{
    let event = old_held_event(plan, words, thread, place);
    let count = count_of(plan, words, thread, event.source, place);
    let position = position_behind(plan, words, thread, place);
    full(position, event.source, count, event.value as u32)
}

// How many of the first so many events of a thread's queue are of a source of the thread.
fn count_of(plan: &Plan, words: &[u64], thread: ThreadId, source: SourceId, place: u32) -> u8
    requires count { length words.now ≡ words_of (shape_of plan.now.accepted) }
    requires known { source.0 < length plan.now.accepted.sources }
    requires own { source_thread plan.now.accepted source.0 ≡ thread.0 }
    requires fed { thread.0 < length plan.now.accepted.threads }
    requires held { place < length (told.old_held plan.now.accepted (board plan.now.accepted words.now) thread.0) }
    ensures own { let memory = board plan.now.accepted words.now in
        result ≡ told.own_old source.0 (take place (told.old_held plan.now.accepted memory thread.0)) }
    ensures few { result < 32 }
{
    // A queue has few places.
    let _program = plan.program();
    own_before(plan, words, source, place) as u8
}

// The position so many places behind the first.
fn position_behind(plan: &Plan, words: &[u64], thread: ThreadId, place: u32) -> u32
    requires count { length words.now ≡ words_of (shape_of plan.now.accepted) }
    requires image { IsOldImage plan.now.accepted (board plan.now.accepted words.now) }
    requires known { thread.0 < length plan.now.accepted.threads }
    requires inside { place < (thread_def plan.now.accepted thread.0).queue }
    ensures position { result ≡ told.old_released plan.now.accepted (board plan.now.accepted words.now) thread.0 + place }
    ensures fits { result < 2 ^ 21 }
{
    let first = old_released(plan, words, thread);
    (first + place as u64) as u32
}

// Stores a word of the board.
fn put(plan: &Plan, new: &mut [u64], place: Place, word: u64)
    requires size { length new.old ≡ words_of (shape_of plan.now.accepted) }
    requires there { IsOnBoard plan.now.accepted (place_of place) }
    ensures { Becomes (place_of place) word (board plan.now.accepted new.old) (board plan.now.accepted new.new) }
{
    // The layout is the program's own.
    let _program = plan.program();
    new[plan.address(place) as usize] = word;
}
