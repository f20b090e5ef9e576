//! The account of a kernel while it is written.
ghost use Rattle.std.specs.Prelude.{◌≡◌, ◌+◌, ◌<◌, ◌≤◌, ◌∷◌, ◌++◌, [], true, false, length, map, IfOk, vec_capacity, vec_len};
ghost use Rattle.kernel_actor.specs.Accounts.{noted};
ghost use Rattle.kernel_actor.specs.Books.{Book, charges_in, HaveRoom};

use ink_base::NoMemory;
use kernel_account::KernelEntry;
use sqlite_items::Items;
use std::alloc::Global;
use std::marker::Model;
use std::mem::replace;

/// A list for the entries of a charge that hasn't begun.
#[derive(Drop)]
pub(crate) struct Room {
    entries: Vec<KernelEntry>,
}

impl Model for Room {
    ghost use Rattle.std.specs.Prelude.{◌≡◌, ℕ, vec_capacity, vec_len};

    ghost Value = { ℕ };

    ghost view = { λ c. vec_capacity c.entries };

    ghost invariant = { λ c. vec_len c.entries ≡ 0 };
}

impl Room {
    fn new(alloc: Global, entries: u32) -> Result<Room, NoMemory>
        ensures { IfOk result (λ room. entries ≤ room) }
    {
        let entries = Vec::with_capacity(alloc, entries as usize)?;
        Ok(Room { entries })
    }

    fn open(self) -> Vec<KernelEntry>
        ensures room { vec_capacity result ≡ self }
        ensures empty { result.items ≡ [] }
    {
        let Room { entries } = self;
        entries
    }
}

/// The entries of a kernel, charge by charge, with room for those to come.
#[derive(Drop)]
pub(crate) struct KernelBook {
    done: Vec<Items<KernelEntry>>,
    entries: Vec<KernelEntry>,
    rooms: Vec<Room>,
    begun: bool,
}

impl Model for KernelBook {
    ghost use Rattle.std.specs.Prelude.{◌+◌, ◌-◌, ◌≤◌, length, vec_capacity, vec_len};
    ghost use Rattle.kernel_actor.specs.Books.{Book};
    ghost use Rattle.kernel_actor.specs.kept.Rooms.{one_if};

    ghost Value = { Book };

    ghost view = { λ c. record { done = c.done.items; entries = c.entries.items; begun = c.begun; spare = vec_capacity c.entries - vec_len c.entries; rooms = c.rooms.items } };

    ghost invariant = { λ c. length c.done.items + one_if c.begun + length c.rooms.items ≤ vec_capacity c.done };
}

impl KernelBook {
    /// An account before its first charge, with room for as many entries in each charge as its budget says.
    pub fn new(alloc: Global, budgets: &[u32]) -> Result<KernelBook, NoMemory>
        ensures done { IfOk result (λ book. book.done ≡ []) }
        ensures begun { IfOk result (λ book. book.begun ≡ false) }
        ensures rooms { IfOk result (λ book. HaveRoom budgets.now book.rooms) }
    {
        let done = Vec::with_capacity(alloc, budgets.len())?;
        let rooms = later_rooms(alloc, budgets)?;
        Ok(KernelBook {
            done,
            entries: Vec::new(alloc),
            rooms,
            begun: false,
        })
    }

    /// The next charge begins.
    pub fn begin(&mut self)
        requires { 0 < length self.old.rooms }
        ensures done { self.new.done ≡ charges_in self.old }
        ensures entries { self.new.entries ≡ [] }
        ensures begun { self.new.begun ≡ true }
        ensures rooms { self.old.rooms ≡ self.new.rooms ++ self.new.spare ∷ [] }
    {
        if let Some(room) = self.rooms.pop() {
            let entries = replace(&mut self.entries, room.open());
            if self.begun {
                self.done.push_reserved(Items::from_vec(entries));
            }
            self.begun = true;
        }
    }

    /// Notes an entry, or none.
    pub fn note(&mut self, entry: Option<KernelEntry>)
        requires { 0 < self.old.spare }
        ensures done { self.new.done ≡ self.old.done }
        ensures entries { self.new.entries ≡ noted self.old.entries entry }
        ensures begun { self.new.begun ≡ self.old.begun }
        ensures spare { self.old.spare ≤ self.new.spare + 1 }
        ensures rooms { self.new.rooms ≡ self.old.rooms }
    {
        if let Some(entry) = entry {
            self.entries.push_reserved(entry);
        }
    }

    /// The charges that have begun. It takes no memory.
    pub fn into_charges(self) -> Vec<Items<KernelEntry>>
        ensures { result.items ≡ charges_in self }
    {
        let KernelBook {
            mut done,
            entries,
            begun,
            ..
        } = self;
        if begun {
            done.push_reserved(Items::from_vec(entries));
        }
        done
    }
}

// A list for each charge, the first one last.
fn later_rooms(alloc: Global, budgets: &[u32]) -> Result<Vec<Room>, NoMemory>
    ensures { IfOk result (λ rooms. HaveRoom budgets.now rooms.items) }
{
    let mut rooms = Vec::new(alloc);
    for k in 0..budgets.len() {
        let budget = budgets[budgets.len() - 1 - k];
        rooms.push(Room::new(alloc, budget)?)?;
    }
    Ok(rooms)
}
