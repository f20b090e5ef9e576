//! The kernel as an actor.

use crate::access::make_access;
use crate::book::KernelBook;
use crate::entries::{commits_of, entry_made};
use crate::kind::kind_of;
use event_queue::{KernelSeat, Note, QueueSet};
use fram_words::Fram;
use ink_base::{Actor, NoMemory};
use ink_layout::{Plan, first_image};
use irq_source::{Gate, Spent};
use kernel_account::KernelEntry;
use kernel_core::Kernel;
use sqlite_items::Items;
use std::alloc::Global;
use std::marker::Model;

/// The most accesses that the kernel makes in all charges.
pub const KERNEL_ACCESSES: u32 = 4194304;

/// The kernel with its own words and its seat at the queues. Contracts see the program, the registers, the words, the seat, the account
/// and how many accesses it may still make.
#[derive(Drop)]
pub struct KernelActor {
    plan: Plan,
    kernel: Kernel,
    fram: Fram,
    seat: KernelSeat,
    book: KernelBook,
    left: u32,
    commits: u32,
}

impl Model for KernelActor {
    ghost use Rattle.std.specs.Prelude.{◌+◌, ◌≤◌};
    ghost use Rattle.event_queue.specs.Seats.{kernel_view};
    ghost use Rattle.kernel_actor.specs.Acting.{Acting};
    ghost use Rattle.kernel_actor.specs.Books.{charges_in};
    ghost use Rattle.kernel_actor.specs.kept.Standing.{Standing};

    ghost Value = { Acting };

    ghost view = { λ c. record { program = c.plan.accepted; kernel = c.kernel; words = c.fram; seat = c.seat; book = c.book; left = c.left } };

    ghost invariant = { λ c. Standing c.plan.accepted c.plan.layout c.fram c.kernel (kernel_view c.seat) c.left (charges_in c.book) × (c.left + c.commits ≤ 4194304) };
}

/// What the kernel leaves behind: its plan, its seat, its words, and its account, charge by charge.
#[derive(Drop)]
pub struct KernelParts {
    pub plan: Plan,
    pub seat: KernelSeat,
    pub words: Vec<u64>,
    pub account: Vec<Items<KernelEntry>>,
}

impl KernelActor {
    ghost use Rattle.std.specs.Prelude.{◌≡◌, ◌+◌, ◌≤◌, ◌<◌, ◌∷◌, ◌++◌, [], true, false, length, IfOk};
    ghost use Rattle.event_queue.specs.Seats.{kernel_view, IsKernelSeatOf, IsSameKernelSeat, IsNoteOf, Noted, HearsAsKernel};
    ghost use Rattle.event_queue.specs.Views.{calls_of, kernel_told};
    ghost use Rattle.ink_layout.specs.Image.{IsFirstImage};
    ghost use Rattle.kernel_core.specs.Kernel.{first_kernel};
    ghost use Rattle.kernel_actor.specs.Accounts.{IsAccountOf};
    ghost use Rattle.kernel_actor.specs.Acting.{place_of, IsSame, IsBeside, KeepsAccount, LeavesState};
    ghost use Rattle.kernel_actor.specs.Books.{charges_in, HaveRoom};
    ghost use Rattle.kernel_actor.specs.Ends.{EndsAs};
    ghost use Rattle.kernel_actor.specs.Lays.{IsLayOf};
    ghost use Rattle.kernel_actor.specs.Rows.{Leads, LeadsOne};
    ghost use Rattle.kernel_actor.specs.Served.{KeepsSeen};
    ghost use Rattle.kernel_actor.specs.Timely.{AddsTimely};

    /// The kernel before its first charge: its words are those of the first image. The seat is one of a set with the program's queues and
    /// sources, and has made no call. There is room for as many entries in each charge as its budget says.
    pub fn new(
        alloc: Global,
        plan: Plan,
        seat: KernelSeat,
        budgets: &[u32],
    ) -> Result<KernelActor, NoMemory>
        requires lay { IsLayOf plan.accepted (kernel_view seat).lay }
        requires calls { calls_of (kernel_view seat) ≡ [] }
        ensures program { IfOk result (λ actor. actor.program ≡ plan.accepted) }
        ensures words { IfOk result (λ actor. IsFirstImage plan.accepted actor.words) }
        ensures seat { IfOk result (λ actor. actor.seat ≡ seat) }
        ensures done { IfOk result (λ actor. (actor.book.done ≡ []) × (actor.book.begun ≡ false)) }
        ensures rooms { IfOk result (λ actor. HaveRoom budgets.now actor.book.rooms) }
        ensures left { IfOk result (λ actor. actor.left ≡ 4194304) }
    {
        let book = KernelBook::new(alloc, budgets)?;
        let _program = plan.program();
        let fram = first_image(alloc, &plan.accepted, &plan.layout)?;
        Ok(KernelActor {
            plan,
            kernel: Kernel::boot(),
            fram,
            seat,
            book,
            left: KERNEL_ACCESSES,
            commits: 0,
        })
    }

    /// Power fails, and the next charge begins: the registers are lost. Own words and what the seat knows stay.
    pub fn cut(&mut self)
        requires { 0 < length self.old.book.rooms }
        ensures beside { IsBeside self.old self.new }
        ensures seat { self.new.seat ≡ self.old.seat }
        ensures kernel { self.new.kernel ≡ first_kernel }
        ensures done { self.new.book.done ≡ charges_in self.old.book }
        ensures entries { self.new.book.entries ≡ [] }
        ensures begun { self.new.book.begun ≡ true }
        ensures rooms { self.old.book.rooms ≡ self.new.book.rooms ++ self.new.book.spare ∷ [] }
        ensures account { KeepsAccount self.new }
    {
        self.kernel = Kernel::boot();
        self.book.begin();
    }

    /// A note of what the kernel's seat knows.
    pub fn note(&mut self, set: &QueueSet) -> Note
        requires seat { IsKernelSeatOf set.now self.old.seat }
        ensures same { IsSame self.old self.new }
        ensures place { place_of self.new ≡ place_of self.old }
        ensures room { (self.new.left ≡ self.old.left) × (self.new.book ≡ self.old.book) }
        ensures note { Noted set.now (kernel_told (kernel_view self.old.seat)) result }
    {
        self.seat.note(set)
    }

    /// Takes in what a note tells.
    pub fn hear(&mut self, set: &QueueSet, note: Note)
        requires seat { IsKernelSeatOf set.now self.old.seat }
        requires note { IsNoteOf set.now note }
        ensures beside { IsBeside self.old self.new }
        ensures seat { HearsAsKernel note self.old.seat self.new.seat }
        ensures kernel { self.new.kernel ≡ self.old.kernel }
        ensures book { self.new.book ≡ self.old.book }
    {
        self.seat.hear(set, note);
    }

    #[tactic(auto, using(crate::proofs::Acting::leads_then, crate::proofs::Timing::timely_none, crate::proofs::Timing::timely_then, crate::proofs::Serving::seen_none, crate::proofs::Serving::seen_then))]
    /// Makes so many accesses, passing the gate before each. The actor is then where so many rows of the kernel's table lead, own words
    /// being read and written in its own memory, and each word of a shared place being the one that its seat was answered by a call of this
    /// charge; each entry of its account is the one of such a row. And its account is one, whatever events the queues are to have, if those
    /// that its seat has seen are among them: then it serves no event of a queue that its seat has not seen. Its entries are no earlier than
    /// what its seat was told before.
    pub fn run_charge<G: Gate>(&mut self, set: &QueueSet, budget: u32, gate: &G) -> Spent
        requires seat { IsKernelSeatOf set.now self.old.seat }
        requires begun { self.old.book.begun ≡ true }
        requires left { budget ≤ self.old.left }
        requires room { budget ≤ self.old.book.spare }
        ensures seat { IsKernelSeatOf set.now self.new.seat }
        ensures same { IsSame self.old self.new }
        ensures leads { Leads self.old.program budget (place_of self.old) (place_of self.new) }
        ensures timely { AddsTimely (kernel_view self.old.seat).told self.old.book.entries self.new.book.entries }
        ensures served { KeepsSeen self.old.program self.old.book.done (place_of self.old) (place_of self.new) }
        ensures account { KeepsAccount self.new }
        ensures left { self.old.left ≡ self.new.left + budget }
        ensures spare { self.old.book.spare ≤ self.new.book.spare + budget }
        ensures steps { result.steps ≡ budget }
    {
        for _ in 0..budget {
            gate.pass(Actor::Kernel, self.commits);
            self.step(set);
        }
        self.accounts();
        Spent { steps: budget }
    }

    // What it keeps is an account.
    fn accounts(&self)
        ensures { KeepsAccount self.now }
    {
        let _left = self.left;
    }

    /// The law of its end: at any time its own words stand for a state that has released what its seat has, and that is the state after its
    /// account, whatever events the queues are to have, if those that its seat has seen are among them.
    pub fn ends(&self)
        ensures { LeavesState self.now }
    {
        let _left = self.left;
    }

    /// What it leaves behind, which is as the law of its end says. It takes no memory.
    pub fn into_parts(self) -> KernelParts
        ensures plan { result.plan.accepted ≡ self.program }
        ensures seat { result.seat ≡ self.seat }
        ensures words { result.words.items ≡ self.words }
        ensures charges { result.account.items ≡ charges_in self.book }
        ensures account { IsAccountOf self.program (calls_of (kernel_view result.seat)) result.account.items }
        ensures ends { EndsAs self.program result.words.items (calls_of (kernel_view result.seat)) result.account.items }
    {
        self.accounts();
        self.ends();
        let KernelActor {
            plan,
            fram,
            seat,
            book,
            ..
        } = self;
        KernelParts {
            plan,
            seat,
            words: fram.into_words(),
            account: book.into_charges(),
        }
    }

    // Makes the next access.
    fn step(&mut self, set: &QueueSet)
        requires seat { IsKernelSeatOf set.now self.old.seat }
        requires begun { self.old.book.begun ≡ true }
        requires left { 0 < self.old.left }
        requires room { 0 < self.old.book.spare }
        ensures seat { IsKernelSeatOf set.now self.new.seat }
        ensures same { IsSame self.old self.new }
        ensures leads { LeadsOne self.old.program (place_of self.old) (place_of self.new) }
        ensures timely { AddsTimely (kernel_view self.old.seat).told self.old.book.entries self.new.book.entries }
        ensures served { KeepsSeen self.old.program self.old.book.done (place_of self.old) (place_of self.new) }
        ensures left { self.old.left ≡ self.new.left + 1 }
        ensures spare { self.old.book.spare ≤ self.new.book.spare + 1 }
    {
        let kind = kind_of(&self.kernel);
        let word = make_access(
            &self.plan,
            &self.kernel,
            &mut self.fram,
            &mut self.seat,
            set,
            kind,
        );
        let point = self.kernel.take(&self.plan, word);
        self.book.note(entry_made(kind, word, point));
        self.commits += commits_of(point);
        self.left -= 1;
    }
}
