//! Short lists.

use ink_base::limits::TASKS;
use sqlite_items::Items;
use std::alloc::{AllocError, Global};
use std::marker::Model;

/// A list of at most as many items as a program has tasks, so that a place in it is a number of a declaration.
#[derive(Drop)]
pub struct Few<T> {
    items: Items<T>,
}

impl<T> Model for Few<T> {
    ghost use Rattle.std.specs.Prelude.{List, ◌≤◌, length};
    ghost use Rattle.ink_base.specs.declared.limits.TheConstants.{TASKS};

    ghost Value = { List T };

    ghost view = { λ f. f.items };

    ghost invariant = { λ f. length f.items ≤ TASKS };
}

impl<T> Few<T> {
    ghost use Rattle.std.specs.Prelude.{◌≡◌, ◌<◌, ◌≤◌, [], ◌∷◌, ◌++◌, length, OnOk};

    /// No items.
    pub fn new(alloc: Global) -> Few<T>
        ensures { result ≡ [] }
    {
        Few {
            items: Items::new(alloc),
        }
    }

    /// Its items.
    pub fn as_slice(&self) -> &[T]
        ensures items { result.now ≡ self.now }
        ensures few { length result.now ≤ TASKS }
    {
        self.items.as_slice()
    }

    /// How many items it has.
    pub fn len(&self) -> usize
        ensures { result ≡ length self.now }
    {
        self.items.len()
    }

    /// Its items, as a list of any length.
    pub fn into_items(self) -> Items<T>
        ensures { result ≡ self }
    {
        self.items
    }
}

impl<T: Drop> Few<T> {
    ghost use Rattle.std.specs.Prelude.{◌≡◌, ◌<◌, ◌∷◌, [], ◌++◌, length, OnOk};

    /// Puts an item at the end.
    pub fn push(&mut self, item: T) -> Result<(), AllocError>
        requires { length self.old < TASKS }
        ensures { OnOk result (self.new ≡ self.old ++ item ∷ []) }
    {
        self.items.push(item)
    }
}
