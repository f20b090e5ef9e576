//! The labels of a task.

use std::alloc::{AllocError, Global};
use std::collections::BTreeMap;
use std::marker::Model;

/// A label of a task: how many of the task's labels stand on earlier lines, and the number of instructions before it.
#[derive(Clone, Copy)]
struct Label {
    place: usize,
    offset: u32,
}

/// The labels of a task. A text may have hundreds of thousands of them, so they are found by search in an ordered map. Contracts see
/// them as the list of their names and offsets, in the order of their lines.
#[derive(Drop)]
pub struct Labels {
    labels: BTreeMap<Vec<u8>, Label>,
}

impl Model for Labels {
    ghost use Rattle.std.specs.Prelude.{ℕ, List};
    ghost use Rattle.task_lines.specs.kept.Placed.{seen, listed, AreKept};

    ghost Value = { List (List ℕ × ℕ) };

    ghost view = { λ l. listed (seen (λ k. k.items) l.labels.entries) };

    ghost invariant = { λ l. AreKept (seen (λ k. k.items) l.labels.entries) };
}

impl Labels {
    ghost use Rattle.std.specs.Prelude.{◌≡◌, [], None, OnOk};
    ghost use Rattle.task_lines.specs.Labels.{offset_of, with_label};

    /// No labels.
    pub fn new(alloc: Global) -> Labels
        ensures { result ≡ [] }
    {
        Labels {
            labels: BTreeMap::new(alloc),
        }
    }

    /// The offset of the label of this name, if there is one.
    pub fn get(&self, name: &[u8]) -> Option<u32>
        ensures { result ≡ offset_of self.now name.now }
    {
        match self.labels.get(name) {
            Some(label) => Some(label.offset),
            None => None,
        }
    }

    /// Adds the label of this name, which none has yet, behind the others.
    pub fn insert(&mut self, alloc: Global, name: &[u8], offset: u32) -> Result<(), AllocError>
        requires { offset_of self.old name.now ≡ None }
        ensures { OnOk result (self.new ≡ with_label self.old name.now offset) }
    {
        let place = self.labels.len();
        let key = Vec::from_slice(alloc, name)?;
        self.labels.insert(key, Label { place, offset })?;
        Ok(())
    }
}
