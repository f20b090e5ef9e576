//! A whole run of a job.
ghost use Rattle.std.specs.Prelude.{◌≡◌, ◌+◌, ◌<◌, ◌≤◌, length, slice_index_or};
ghost use Rattle.job_parts.specs.Job.{item_turns};
ghost use Rattle.kernel_core.specs.Board.{moved_by};
ghost use Rattle.kernel_core.specs.Stands.{BoardStands};
ghost use Rattle.kernel_core.specs.Listed.{moves, moves_of, turns_of};
ghost use Rattle.kernel_core.specs.Moves.{IsActor};
ghost use Rattle.kernel_core.specs.Costed.{PicksCommit};
ghost use Rattle.kernel_core.specs.Settled.{ChargesSettle};
ghost use Rattle.kernel_core.specs.Core.{setup_of, charge_def, no_item};

use crate::board::Core;
use job_parts::Item;

impl Core {
    /// The whole run of the job: for each charge in order a cut with its dark ticks, and then the turns of its items in order. In each
    /// charge every source settles as many readings as its accesses are enough for, and behind a pick the commit comes with the access that
    /// its service costs.
    pub fn run(&mut self)
        requires { self.old.board.begun ≡ 0 }
        ensures board { self.new.board ≡ moved_by (setup_of self.old.job) self.old.board (moves self.old.job.charges) }
        ensures stands { BoardStands (setup_of self.new.job) self.new.board }
        ensures job { self.new.job ≡ self.old.job }
        ensures settled { ChargesSettle self.new.job.program self.new.board.charges }
        ensures commits { PicksCommit (setup_of self.old.job) self.old.board (moves self.old.job.charges) }
    {
        self.commits();
        for n in 0..self.listed().len() {
            self.run_charge(n);
        }
        self.stands();
    }

    fn run_charge(&mut self, n: usize)
        requires begun { self.old.board.begun ≡ n }
        requires known { n < length self.old.job.charges }
        ensures board { self.new.board ≡ moved_by (setup_of self.old.job) self.old.board (moves_of (charge_def self.old.job n)) }
        ensures begun { self.new.board.begun ≡ n + 1 }
        ensures job { self.new.job ≡ self.old.job }
    {
        self.cut(self.off_at(n));
        for k in 0..self.items_at(n) {
            self.run_item(self.item_at(n, k));
        }
    }

    /// As many turns of the item's actor as the item counts, one after another; of each one what `step` tells holds. The room for turns
    /// shrinks by at most so many.
    pub fn run_item(&mut self, item: Item)
        requires known { IsActor (setup_of self.old.job) item.actor }
        requires begun { 0 < self.old.board.begun }
        requires room { item.count ≤ self.old.room }
        ensures board { self.new.board ≡ moved_by (setup_of self.old.job) self.old.board (turns_of item) }
        ensures stands { BoardStands (setup_of self.new.job) self.new.board }
        ensures begun { self.new.board.begun ≡ self.old.board.begun }
        ensures job { self.new.job ≡ self.old.job }
        ensures room { self.old.room ≤ self.new.room + item.count }
        ensures settled { ChargesSettle self.new.job.program self.new.board.charges }
    {
        for _turn in 0..item.count {
            self.step(item.actor);
        }
        self.stands();
    }

    // The ticks that the board is dark before a charge.
    fn off_at(&self, n: usize) -> u32
        requires { n < length self.now.job.charges }
        ensures { result ≡ (charge_def self.now.job n).off }
    {
        self.listed()[n].off
    }

    // The number of items of a charge.
    fn items_at(&self, n: usize) -> usize
        requires { n < length self.now.job.charges }
        ensures { result ≡ length (charge_def self.now.job n).items }
    {
        self.listed()[n].items.len()
    }

    // An item of a charge.
    fn item_at(&self, n: usize, k: usize) -> Item
        requires charge { n < length self.now.job.charges }
        requires item { k < length (charge_def self.now.job n).items }
        ensures same { result ≡ slice_index_or (charge_def self.now.job n).items k no_item }
        ensures known { IsActor (setup_of self.now.job) result.actor }
    {
        self.listed()[n].items.as_slice()[k]
    }
}
