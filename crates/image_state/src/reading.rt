//! The state that an image tells.

ghost use Rattle.std.specs.Prelude.{◌≡◌, ℕ, List, length, IfOk};
ghost use Rattle.ink_layout.specs.Shape.{shape_of, words_of};
ghost use Rattle.never_cut.specs.Image.{IsImage};
ghost use Rattle.never_cut.specs.ReadOff.{IsReadOff};
ghost use Rattle.never_cut.specs.Stands.{Stands};
ghost use Rattle.never_cut.specs.Worn.{IsWorn};
ghost use Rattle.image_state.specs.Words.{by_place};
ghost use Rattle.image_state.specs.kept.Told.{HasFewSettled, IsImageOf, IsNewest, IsTold};

use crate::devices::{pipes_told, sources_told, timers_told};
use crate::outputs::outputs_told;
use crate::threads::threads_told;
use fram_words::{Header, Place};
use image_told::{header_word, word_at};
use ink_base::{NoMemory, ThreadId};
use ink_layout::Plan;
use never_cut::{Model, images_stand};
use sqlite_items::Items;
use std::alloc::Global;

/// The state that the words of an image tell, where the image isn't worn with some readings listed: its outputs stand in the order of
/// their stamps, no scan has begun and no reading is marked as refused. The words stand for it.
pub fn read_off(alloc: Global, plan: &Plan, words: &[u64]) -> Result<Model, NoMemory>
    requires count { length words.now ≡ words_of (shape_of plan.now.accepted) }
    requires image { IsImage plan.now.accepted (by_place plan.now.accepted words.now) }
    requires fresh { (listed : List ℕ) × ¬ IsWorn plan.now.accepted listed (by_place plan.now.accepted words.now) }
    ensures read { IfOk result (IsReadOff plan.now.accepted (by_place plan.now.accepted words.now)) }
    ensures stands { IfOk result (Stands (by_place plan.now.accepted words.now) plan.now.accepted) }
{
    // The program is accepted, and an image stands for what it tells.
    let _program = plan.program();
    images_stand();
    model_told(alloc, plan, words)
}

fn model_told(alloc: Global, plan: &Plan, words: &[u64]) -> Result<Model, NoMemory>
    requires image { IsImageOf plan.now.accepted words.now }
    requires few { HasFewSettled plan.now.accepted (by_place plan.now.accepted words.now) }
    ensures { IfOk result (IsTold plan.now.accepted (by_place plan.now.accepted words.now)) }
{
    Ok(Model {
        threads: Items::from_vec(threads_told(alloc, plan, words)?),
        pipes: Items::from_vec(pipes_told(alloc, plan, words)?),
        timers: Items::from_vec(timers_told(alloc, plan, words)?),
        sources: Items::from_vec(sources_told(alloc, plan, words)?),
        clock: word_at(plan, words, Place::Clock),
        outputs: Items::from_vec(outputs_told(alloc, plan, words)?),
        commits: newest_stamp(plan, words),
        scan: None,
    })
}

// The greatest stamp of all threads, which is the number of commits.
fn newest_stamp(plan: &Plan, words: &[u64]) -> u64
    requires { length words.now ≡ words_of (shape_of plan.now.accepted) }
    ensures { IsNewest (by_place plan.now.accepted words.now) (length plan.now.accepted.threads) result }
{
    let mut newest = 0;
    for t in 0..plan.program().threads.len() {
        newest = newest.max(header_word(plan, words, ThreadId(t as u8), Header::Stamp));
    }
    newest
}
