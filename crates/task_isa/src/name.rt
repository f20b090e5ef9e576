//! The names of what a program declares.

use ink_base::NoMemory;
use std::alloc::Global;
use std::marker::Model;

/// A name: a letter followed by at most 15 letters, digits or `_`.
#[derive(Drop)]
pub struct Name {
    bytes: Vec<u8>,
}

impl Model for Name {
    ghost use Rattle.std.specs.Prelude.{ℕ, List, IsTrue};
    ghost use Rattle.task_isa.specs.Names.{is_name};

    ghost Value = { List ℕ };

    ghost view = { λ n. n.bytes.items };

    ghost invariant = { λ n. IsTrue (is_name n.bytes.items) };
}

impl Name {
    ghost use Rattle.std.specs.Prelude.{◌≡◌, IsTrue, IfOk};
    ghost use Rattle.std.specs.Str.{bytes_eq};
    ghost use Rattle.task_isa.specs.Names.{is_name};

    /// The name of these bytes.
    pub fn new(alloc: Global, word: &[u8]) -> Result<Name, NoMemory>
        requires { IsTrue (is_name word.now) }
        ensures { IfOk result (λ n. n ≡ word.now) }
    {
        let bytes = Vec::from_slice(alloc, word)?;
        Ok(Name { bytes })
    }

    /// Its bytes.
    pub fn as_bytes(&self) -> &[u8]
        ensures bytes { result.now ≡ self.now }
        ensures name { IsTrue (is_name self.now) }
    {
        self.bytes.as_slice()
    }

    /// An equal name.
    pub fn copy(&self, alloc: Global) -> Result<Name, NoMemory>
        ensures { IfOk result (λ n. n ≡ self.now) }
    {
        let bytes = Vec::from_slice(alloc, self.bytes.as_slice())?;
        Ok(Name { bytes })
    }

    /// Whether it has these bytes.
    pub fn is(&self, word: &[u8]) -> bool
        ensures { result ≡ bytes_eq self.now word.now }
    {
        self.bytes.as_slice() == word
    }
}
