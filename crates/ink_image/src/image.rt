//! The section of an image.

ghost use Rattle.std.specs.Prelude.{◌≡◌, ◌-◌, ◌≤◌, length, drop, IfOk};
ghost use Rattle.ink_base.specs.Checks.{words_of};
ghost use Rattle.ink_base.specs.TokenLines.{token_lines};
ghost use Rattle.ink_image.specs.declared.image.ImageAnswer.TheVariants.{NoMemory as out_of_memory};
ghost use Rattle.ink_image.specs.Form.{form_of, memory_in, HasWords, IsImageIn, IsWornIn};
ghost use Rattle.ink_image.specs.Image.{GivesStart, Judges, JudgesSection, UnlessMemory, IsReady};
ghost use Rattle.ink_image.specs.Reading.{section_entries};

use crate::form::{Form, form_of};
use crate::judging::{first_failing, is_worn, today};
use crate::reading::{WordsAnswer, read_words};
use image_state::read_off;
use ink_base::{Addr, NoMemory, Token, Tokens};
use ink_layout::Plan;
use ink_text::tokens_from;
use job_parts::Start;
use prog_check::Accepted;
use sqlite_items::Items;
use std::alloc::{AllocError, Global};

/// Why the section of an image gives no start.
#[derive(Clone, Copy, Debug, PartialEq, Eq)]
pub enum ImageAnswer {
    /// The line of the first word that isn't 16 hexadecimal digits.
    BadWord { line: u32 },
    /// Another number of words than the program's board has.
    WrongShape,
    /// The address of the word that is named by the first check of an image that fails.
    NotStanding { addr: Addr },
    /// An image whose counts have no room left for the job.
    Worn,
    /// There was no memory.
    NoMemory,
}

impl From<NoMemory> for ImageAnswer {
    ghost from_gives = { λ _ e. e ≡ out_of_memory };

    fn from(_e: NoMemory) -> ImageAnswer {
        ImageAnswer::NoMemory
    }
}

impl From<AllocError> for ImageAnswer {
    ghost from_gives = { λ _ e. e ≡ out_of_memory };

    fn from(_e: AllocError) -> ImageAnswer {
        ImageAnswer::NoMemory
    }
}

impl From<WordsAnswer> for ImageAnswer {
    ghost use Rattle.ink_image.specs.Image.{answer_of};

    ghost from_gives = { λ words e. e ≡ answer_of words };

    fn from(e: WordsAnswer) -> ImageAnswer {
        match e {
            WordsAnswer::BadWord { line } => ImageAnswer::BadWord { line },
            WordsAnswer::NoMemory => ImageAnswer::NoMemory,
        }
    }
}

/// The start that the section of an image gives to a program, with so many readings listed for each source. `at` is the index of the first
/// token behind the section's header, and the section ends at the next header or with the text. Its words are in the form of their header:
/// `[image1]` or `[image2]`.
///
/// Refused in this order: `BadWord` exactly at the first token that isn't 16 hexadecimal digits; `WrongShape` exactly where there are more or
/// fewer words than the program's board has; `NotStanding` exactly where they are no image, with the address of the first check that
/// fails; `Worn` exactly where they are a worn one.
pub fn read_image(
    alloc: Global,
    text: &[u8],
    tokens: &Tokens,
    at: u32,
    program: &Accepted,
    listed: &[u32],
) -> Result<Start, ImageAnswer>
    requires header { 1 ≤ at }
    requires within { at ≤ length tokens.now.list.items }
    requires listed { length listed.now ≡ length program.now.sources }
    ensures told { UnlessMemory (JudgesSection (form_of (words_of text.now (drop (at - 1) tokens.now.list.items))) program.now listed.now
        (section_entries (token_lines text.now (drop at tokens.now.list.items)))) result }
    ensures ready { IfOk result (IsReady program.now listed.now) }
{
    let form = form_of(text, tokens_from(tokens, at - 1));
    section_start(alloc, form, text, tokens_from(tokens, at), program, listed)
}

/// The same by the form of the words, and the tokens behind the header.
pub fn section_start(
    alloc: Global,
    form: Form,
    text: &[u8],
    section: &[Token],
    program: &Accepted,
    listed: &[u32],
) -> Result<Start, ImageAnswer>
    requires { length listed.now ≡ length program.now.sources }
    ensures told { UnlessMemory (JudgesSection form program.now listed.now (section_entries (token_lines text.now section.now))) result }
    ensures ready { IfOk result (IsReady program.now listed.now) }
{
    let words = read_words(alloc, text, section)?;
    let plan = Plan::new(alloc, program.copy(alloc)?)?;
    judged_start(alloc, form, &plan, listed, words)
}

// The start that words give.
fn judged_start(
    alloc: Global,
    form: Form,
    plan: &Plan,
    listed: &[u32],
    words: Vec<u64>,
) -> Result<Start, ImageAnswer>
    requires { length listed.now ≡ length plan.now.accepted.sources }
    ensures told { UnlessMemory (Judges form plan.now.accepted listed.now words.items) result }
    ensures ready { IfOk result (IsReady plan.now.accepted listed.now) }
{
    if words.len() != plan.layout.words as usize {
        return Err(ImageAnswer::WrongShape);
    }
    if let Some(place) = first_failing(form, plan, words.as_slice()) {
        return Err(ImageAnswer::NotStanding {
            addr: plan.address(place),
        });
    }
    if is_worn(form, plan, listed, words.as_slice()) {
        return Err(ImageAnswer::Worn);
    }
    Ok(start_of(alloc, form, plan, listed, words)?)
}

// The start of an image that isn't worn.
fn start_of(
    alloc: Global,
    form: Form,
    plan: &Plan,
    listed: &[u32],
    words: Vec<u64>,
) -> Result<Start, NoMemory>
    requires count { HasWords plan.now.accepted words.items }
    requires image { IsImageIn form plan.now.accepted (memory_in plan.now.accepted words.items) }
    requires fresh { ¬ IsWornIn form plan.now.accepted listed.now (memory_in plan.now.accepted words.items) }
    ensures gives { IfOk result (GivesStart form plan.now.accepted listed.now words.items) }
    ensures ready { IfOk result (IsReady plan.now.accepted listed.now) }
{
    let words = today(alloc, form, plan, words)?;
    let model = read_off(alloc, plan, words.as_slice())?;
    Ok(Start {
        words: Items::from_vec(words),
        model,
    })
}
