//! A service that goes on ahead of its board.

ghost use Rattle.std.specs.Prelude.{◌≡◌, ℕ, ◌+◌, ◌<◌, length, slice_index};
ghost use Rattle.prog_check.specs.Accepted.{IsAccepted};
ghost use Rattle.fram_words.specs.Places as places;
ghost use Rattle.fram_words.specs.Shape.{memory_of};
ghost use Rattle.fram_words.specs.Steps.{access_of, place_of};
ghost use Rattle.ink_layout.specs.Addresses.{layout_address};
ghost use Rattle.ink_layout.specs.Shape.{IsOnBoard, shape_of};
ghost use Rattle.task_run.specs.Fits.{FitsTask, FitsWord};
ghost use Rattle.task_run.specs.Machine as machine;
ghost use Rattle.task_run.specs.kept.Ahead.{block_index, found_at, found_by, kept_by};

use crate::machine::TaskMachine;
use fram_words::{Fram, Header, Place, Step};
use ink_base::ThreadId;
use ink_base::limits::STATE_NUMBERS;
use ink_layout::Plan;

// The pages of the largest block.
const PAGES: usize = (Header::WORDS as usize + STATE_NUMBERS as usize) / 8;

// Its words, in both copies of its pages.
const BLOCK_WORDS: usize = 16 * PAGES;

// A machine and the words of its thread's block as its accesses leave them: both copies of a page, one page after the other. What else it
// stores, it never loads before its commit; all other words are those of the board, which stays as it is.
#[derive(Drop)]
pub(crate) struct Ahead {
    pub(crate) machine: TaskMachine,
    block: [u64; BLOCK_WORDS],
}

impl Ahead {
    // As far as the machine and the board are.
    pub(crate) fn begin(machine: &TaskMachine, plan: &Plan, fram: &Fram) -> Ahead
        requires { IsOnBoard plan.now.accepted (places.Page machine.now.pick.thread.0 0 0 0) }
        ensures machine { result.machine ≡ machine.now }
        ensures size { length result.block ≡ BLOCK_WORDS }
        ensures block { (n : ℕ) → n < BLOCK_WORDS → slice_index result.block n ≡ slice_index fram.now (layout_address plan.now.layout (places.Page machine.now.pick.thread.0 0 0 0) + n) }
    {
        Ahead {
            machine: *machine,
            block: block_of(plan, fram, machine.pick.thread),
        }
    }

    // The machine's next access, to its place.
    pub(crate) fn wanted(&self, plan: &Plan) -> Step
        requires { FitsTask plan.now.accepted self.now.machine }
        ensures step { access_of result ≡ machine.want plan.now.accepted self.now.machine }
        ensures there { IsOnBoard plan.now.accepted (places.place_of (access_of result)) }
    {
        self.machine.wants(plan.program())
    }

    // The word that the step finds, where it is a load.
    pub(crate) fn found(&self, plan: &Plan, fram: &Fram, step: Step) -> u64
        requires { IsOnBoard plan.now.accepted (places.place_of (access_of step)) }
        ensures { result ≡ found_by (memory_of (shape_of plan.now.accepted) fram.now) self.now.machine.pick.thread.0 self.now.block (access_of step) }
    {
        match step {
            Step::Load(place) => self.word_at(plan, fram, place),
            _ => 0,
        }
    }

    // The word of a place: one of the block, or of the board.
    fn word_at(&self, plan: &Plan, fram: &Fram, place: Place) -> u64
        requires { IsOnBoard plan.now.accepted (place_of place) }
        ensures { result ≡ found_at (memory_of (shape_of plan.now.accepted) fram.now) self.now.machine.pick.thread.0 self.now.block (place_of place) }
    {
        let _program = plan.program();
        match place {
            Place::Page {
                thread,
                page,
                copy,
                word,
            } if thread.0 == self.machine.pick.thread.0 => self.block[index_of(page, copy, word)],
            _ => fram.word(plan.address(place)),
        }
    }

    // The machine goes on from an access that found this word, and the block keeps what was stored in it.
    pub(crate) fn take(&mut self, plan: &Plan, step: Step, word: u64)
        requires there { IsOnBoard plan.now.accepted (places.place_of (access_of step)) }
        requires fits { FitsTask plan.now.accepted self.old.machine }
        requires word { FitsWord plan.now.accepted self.old.machine.phase word }
        ensures registers { self.new.machine ≡ machine.take plan.now.accepted self.old.machine word }
        ensures size { length self.new.block ≡ BLOCK_WORDS }
        ensures block { self.new.block ≡ kept_by self.old.machine.pick.thread.0 self.old.block (access_of step) }
    {
        self.keep(plan, step);
        self.machine.go_on(plan.program(), word);
    }

    // A word that the step stores in the block stays in it.
    fn keep(&mut self, plan: &Plan, step: Step)
        requires { IsOnBoard plan.now.accepted (places.place_of (access_of step)) }
        ensures machine { self.new.machine ≡ self.old.machine }
        ensures block { self.new.block ≡ kept_by self.old.machine.pick.thread.0 self.old.block (access_of step) }
    {
        let _program = plan.program();
        if let Step::Store(
            Place::Page {
                thread,
                page,
                copy,
                word,
            },
            value,
        ) = step
            && thread.0 == self.machine.pick.thread.0
        {
            self.block[index_of(page, copy, word)] = value;
        }
    }
}

// Where a word of a page stands in the block.
fn index_of(page: u32, copy: u32, word: u32) -> usize
    requires page { page < PAGES }
    requires copy { copy < 2 }
    requires word { word < 8 }
    ensures index { result ≡ block_index page copy word }
    ensures inside { result < BLOCK_WORDS }
{
    (16 * page + 8 * copy + word) as usize
}

// The words of a thread's block, and those behind it.
fn block_of(plan: &Plan, fram: &Fram, thread: ThreadId) -> [u64; BLOCK_WORDS]
    requires { IsOnBoard plan.now.accepted (places.Page thread.0 0 0 0) }
    ensures { (n : ℕ) → n < BLOCK_WORDS → slice_index result n ≡ slice_index fram.now (layout_address plan.now.layout (places.Page thread.0 0 0 0) + n) }
{
    // The address is one of the board's.
    let _program = plan.program();
    let first = plan.address(Place::Page {
        thread,
        page: 0,
        copy: 0,
        word: 0,
    });
    let mut block = [0; BLOCK_WORDS];
    for (n, word) in block.iter_mut().enumerate() {
        *word = fram.word(first + n as u32);
    }
    block
}
