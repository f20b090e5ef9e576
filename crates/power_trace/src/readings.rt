//! The readings as far as they are read.

use ink_base::checks::{first, word};
use ink_base::limits::READINGS;
use ink_base::{Cause, LineError, Token};
use ink_text::{Section, source, up_to};
use sqlite_items::Items;
use std::alloc::{AllocError, Global};
use std::marker::Model;

/// The readings of each source so far. Contracts see them as a list of lists.
#[derive(Drop)]
pub struct Readings {
    lists: Vec<Items<u32>>,
}

impl Model for Readings {
    ghost use Rattle.std.specs.Prelude.{ℕ, List};

    ghost Value = { List (List ℕ) };

    ghost view = { λ r. r.lists.items };
}

impl Readings {
    ghost use Rattle.std.specs.Prelude.{◌≡◌, [], replicate, IfOk};

    /// None of each of so many sources.
    pub fn new(alloc: Global, sources: usize) -> Result<Readings, AllocError>
        ensures { IfOk result (λ r. r ≡ replicate sources []) }
    {
        let mut lists = Vec::new(alloc);
        for _i in 0..sources {
            lists.push(Items::new(alloc))?;
        }
        Ok(Readings { lists })
    }

    /// The lists themselves.
    pub fn into_lists(self) -> Items<Items<u32>>
        ensures { result ≡ self }
    {
        let Readings { lists } = self;
        Items::from_vec(lists)
    }
}

ghost use Rattle.std.specs.Prelude.{◌≡◌};
ghost use Rattle.ink_base.specs.Checks.{words_of};
ghost use Rattle.ink_base.specs.Gives.{Leaves};
ghost use Rattle.ink_text.specs.Words.{words_in};
ghost use Rattle.power_trace.specs.Sensors.{value_in, sensor_line};

fn read_value(values: &mut Items<u32>, word: &[u8]) -> Result<(), LineError>
    ensures { Leaves result values.new (value_in values.old word.now) }
{
    let value = up_to(u64::from(u32::MAX), word)?;
    if values.len() >= READINGS {
        return Err(LineError::Fault(Cause::OverLimit));
    }
    values.push(value as u32)?;
    Ok(())
}

fn read_values(values: &mut Items<u32>, text: &[u8], words: &[Token]) -> Result<(), LineError>
    ensures { Leaves result values.new (words_in value_in values.old (words_of text.now words.now)) }
{
    for token in words {
        if let Err(e) = read_value(values, word(text, token)) {
            return Err(e);
        }
    }
    Ok(())
}

impl Section for Readings {
    ghost line = { sensor_line };

    ghost keeps = { λ _. Unit {0} };

    #[tactic(auto, unfolding(crate::specs::Sensors::sensor_line))]
    fn read_line(
        &mut self,
        _alloc: Global,
        text: &[u8],
        _line: u32,
        words: &[Token],
    ) -> Result<(), LineError> {
        let (name, values) = first(text, words)?;
        match source(self.lists.len(), name) {
            Some(i) => read_values(&mut self.lists[i], text, values),
            None => Err(LineError::Fault(Cause::UnknownWord)),
        }
    }
}
