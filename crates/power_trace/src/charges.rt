//! The charges as far as they are read.

ghost use Rattle.std.specs.Prelude.{◌≡◌, ◌≤◌, ◌==◌, length, position, take, drop, IfOk};
ghost use Rattle.ink_base.specs.Checks.{words_of};
ghost use Rattle.ink_base.specs.Gives.{Gives, Leaves};
ghost use Rattle.ink_text.specs.Words.{words_in};
ghost use Rattle.power_trace.specs.Power.{known_actor, star_of, count_at, item_of, item_in, room_in, charge_line};

use ink_base::checks::{fixed, number, word};
use ink_base::limits::{CHARGES, TICKS, TURNS};
use ink_base::{Actor, Cause, LineError, Token};
use ink_text::{Section, actor, up_to};
use job_parts::{Charge, Item};
use sqlite_items::Items;
use std::alloc::Global;

/// The items of a charge so far, and the turns of the whole job so far.
#[derive(Drop)]
pub struct Turns {
    pub items: Items<Item>,
    pub turns: u32,
}

/// The charges so far, the line of each, the turns of all of them, and how many sources the board has.
#[derive(Drop)]
pub struct Charges {
    pub sources: u8,
    pub list: Items<Charge>,
    pub lines: Items<u32>,
    pub turns: u32,
}

impl Charges {
    ghost use Rattle.std.specs.Prelude.{◌≡◌};
    ghost use Rattle.power_trace.specs.Power.{no_charges};

    /// None yet.
    pub fn none(alloc: Global, sources: u8) -> Charges
        ensures { result ≡ no_charges sources }
    {
        Charges {
            sources,
            list: Items::new(alloc),
            lines: Items::new(alloc),
            turns: 0,
        }
    }
}

// The place of the first `*`, or the length.
fn star(word: &[u8]) -> usize
    ensures same { result ≡ star_of word.now }
    ensures within { result ≤ length word.now }
{
    word.iter().take_while(|b| **b != b'*').count()
}

fn known_actor(sources: u8, name: &[u8]) -> Result<Actor, LineError>
    ensures { Gives (λ a. a) result (known_actor sources name.now) }
{
    match actor(sources, name) {
        Some(actor) => Ok(actor),
        None => Err(LineError::Fault(Cause::UnknownWord)),
    }
}

// The count behind the `*` at a place; one turn where none is there.
fn count_at(word: &[u8], star: usize) -> Result<u64, LineError>
    requires { star ≤ length word.now }
    ensures given { Gives (λ n. n) result (count_at word.now star) }
    ensures within { IfOk result (λ n. n ≤ TURNS) }
{
    if star == word.len() {
        Ok(1)
    } else {
        up_to(u64::from(TURNS), &word[star + 1..])
    }
}

#[tactic(auto, unfolding(crate::specs::Power::item_of))]
fn read_item(sources: u8, word: &[u8]) -> Result<Item, LineError>
    ensures given { Gives (λ item. item) result (item_of sources word.now) }
    ensures within { IfOk result (λ item. item.count ≤ TURNS) }
{
    let star = star(word);
    let actor = known_actor(sources, &word[..star])?;
    let count = count_at(word, star)?;
    Ok(Item {
        actor,
        count: count as u32,
    })
}

#[tactic(auto, unfolding(crate::specs::Power::item_in))]
fn add_item(sources: u8, so_far: &mut Turns, word: &[u8]) -> Result<(), LineError>
    ensures { Leaves result so_far.new (item_in sources so_far.old word.now) }
{
    let item = read_item(sources, word)?;
    let turns = u64::from(so_far.turns) + u64::from(item.count);
    if turns > u64::from(TURNS) {
        return Err(LineError::Fault(Cause::OverLimit));
    }
    so_far.items.push(item)?;
    so_far.turns = turns as u32;
    Ok(())
}

fn add_items(sources: u8, so_far: &mut Turns, text: &[u8], words: &[Token]) -> Result<(), LineError>
    ensures { Leaves result so_far.new (words_in (item_in sources) so_far.old (words_of text.now words.now)) }
{
    for token in words {
        if let Err(e) = add_item(sources, so_far, word(text, token)) {
            return Err(e);
        }
    }
    Ok(())
}

fn room(charges: &Charges) -> Result<(), LineError>
    ensures { Gives (λ x. x) result (room_in charges.now) }
{
    if charges.list.len() < CHARGES {
        Ok(())
    } else {
        Err(LineError::Fault(Cause::OverLimit))
    }
}

impl Section for Charges {
    ghost line = { charge_line };

    ghost keeps = { λ _. Unit {0} };

    #[tactic(auto, unfolding(crate::specs::Power::charge_line))]
    fn read_line(
        &mut self,
        alloc: Global,
        text: &[u8],
        line: u32,
        words: &[Token],
    ) -> Result<(), LineError> {
        let rest = fixed(text, words, b"charge")?;
        room(self)?;
        let (off, items) = number(text, rest, 0, u64::from(TICKS))?;
        let mut so_far = Turns {
            items: Items::new(alloc),
            turns: self.turns,
        };
        add_items(self.sources, &mut so_far, text, items)?;
        self.list.push(Charge {
            off: off as u32,
            items: so_far.items,
        })?;
        self.lines.push(line)?;
        self.turns = so_far.turns;
        Ok(())
    }
}
