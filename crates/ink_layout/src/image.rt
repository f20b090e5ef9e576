//! The words of a board before its first charge.

ghost use Rattle.std.specs.Prelude.{◌≡◌, ℕ, ◌+◌, ◌<◌, length, IfOk};
ghost use Rattle.prog_check.specs.Lookup.{thread_def, task_def};
ghost use Rattle.fram_words.specs.Places.{Code, Memory, Slot, store};
ghost use Rattle.fram_words.specs.Steps.{place_of};
ghost use Rattle.fram_words.specs.Header as header;
ghost use Rattle.fram_words.specs.Held as held;
ghost use Rattle.ink_layout.specs.Image.{Holds, IsFirstImage, timed_word};
ghost use Rattle.ink_layout.specs.Layouts.{IsLayout};
ghost use Rattle.ink_layout.specs.Shape.{IsOnBoard, shape_of, words_of};
ghost use Rattle.ink_layout.specs.Stages.{code_until, slots_until, with_blocks, put_word};

use crate::addresses::address_of;
use fram_words::{Access, Fram, Header, Layout, Place, due_word};
use ink_base::{NoMemory, TaskId, ThreadId};
use prog_check::Accepted;
use push_core::empty;
use std::alloc::Global;
use task_isa::{Instr, encode};

/// The words of a program's board before its first charge: the code words; in slot `n` of each queue the empty word of position `n`;
/// in both copies of each thread's header the starting words of its timers; and zeros.
pub fn first_image(alloc: Global, program: &Accepted, layout: &Layout) -> Result<Fram, NoMemory>
    requires layout { IsLayout program.now layout.now }
    ensures { IfOk result (λ fram. IsFirstImage program.now fram) }
{
    let mut fram = Fram::new(alloc, layout.words)?;
    write_first_image(&mut fram, program, layout);
    Ok(fram)
}

/// Writes those words over the words of the program's board. It takes no memory.
pub fn write_first_image(fram: &mut Fram, program: &Accepted, layout: &Layout)
    requires layout { IsLayout program.now layout.now }
    requires count { length fram.old ≡ words_of (shape_of program.now) }
    ensures { IsFirstImage program.now fram.new }
{
    fram.clear();
    store_code(fram, program, layout);
    empty_queues(fram, program, layout);
    start_timers(fram, program, layout);
}

fn store_code(fram: &mut Fram, program: &Accepted, layout: &Layout)
    requires layout { IsLayout program.now layout.now }
    requires before { Holds program.now fram.old (code_until program.now 0 0) }
    ensures { Holds program.now fram.new (code_until program.now (length program.now.tasks) 0) }
{
    for x in 0..program.program().tasks.len() {
        store_task(fram, program, layout, x);
    }
}

fn store_task(fram: &mut Fram, program: &Accepted, layout: &Layout, x: usize)
    requires layout { IsLayout program.now layout.now }
    requires known { x < length program.now.tasks }
    requires before { Holds program.now fram.old (code_until program.now x 0) }
    ensures { Holds program.now fram.new (code_until program.now (x + 1) 0) }
{
    for n in 0..code_of(program, x).len() {
        store_instr(fram, program, layout, x, n);
    }
}

fn store_instr(fram: &mut Fram, program: &Accepted, layout: &Layout, x: usize, n: usize)
    requires layout { IsLayout program.now layout.now }
    requires on_board { IsOnBoard program.now (Code x n) }
    requires before { Holds program.now fram.old (code_until program.now x n) }
    ensures { Holds program.now fram.new (code_until program.now x (n + 1)) }
{
    // The program is accepted, so its tasks and their code are few.
    let _program = program.program();
    let word = encode(code_of(program, x)[n]);
    let (task, offset) = (TaskId(x as u16), n as u32);
    put(fram, program, layout, Place::Code { task, offset }, word);
}

// The code of a task.
fn code_of(program: &Accepted, x: usize) -> &[Instr]
    requires { x < length program.now.tasks }
    ensures { result.now ≡ (task_def program.now x).code }
{
    program.program().tasks.as_slice()[x].code.as_slice()
}

fn empty_queues(fram: &mut Fram, program: &Accepted, layout: &Layout)
    requires layout { IsLayout program.now layout.now }
    requires before { Holds program.now fram.old (slots_until program.now 0 0) }
    ensures { Holds program.now fram.new (slots_until program.now (length program.now.threads) 0) }
{
    for t in 0..program.program().threads.len() {
        empty_queue(fram, program, layout, t);
    }
}

fn empty_queue(fram: &mut Fram, program: &Accepted, layout: &Layout, t: usize)
    requires layout { IsLayout program.now layout.now }
    requires known { t < length program.now.threads }
    requires before { Holds program.now fram.old (slots_until program.now t 0) }
    ensures { Holds program.now fram.new (slots_until program.now (t + 1) 0) }
{
    for n in 0..queue_len(program, t) {
        empty_slot(fram, program, layout, t, n);
    }
}

fn empty_slot(fram: &mut Fram, program: &Accepted, layout: &Layout, t: usize, n: u32)
    requires layout { IsLayout program.now layout.now }
    requires on_board { IsOnBoard program.now (Slot t n) }
    requires before { Holds program.now fram.old (slots_until program.now t n) }
    ensures { Holds program.now fram.new (slots_until program.now t (n + 1)) }
{
    // The program is accepted, so its threads and their slots are few.
    let _program = program.program();
    let thread = ThreadId(t as u8);
    put(
        fram,
        program,
        layout,
        Place::Slot { thread, index: n },
        empty(n),
    );
}

// The number of slots of a thread's queue.
fn queue_len(program: &Accepted, t: usize) -> u32
    requires { t < length program.now.threads }
    ensures { result ≡ (thread_def program.now t).queue }
{
    program.program().threads.as_slice()[t].queue as u32
}

fn start_timers(fram: &mut Fram, program: &Accepted, layout: &Layout)
    requires layout { IsLayout program.now layout.now }
    requires before { Holds program.now fram.old (with_blocks program.now (timed_word program.now 0)) }
    ensures { Holds program.now fram.new (with_blocks program.now (timed_word program.now (length program.now.timers))) }
{
    for j in 0..program.program().timers.len() {
        start_timer(fram, program, layout, j);
    }
}

fn start_timer(fram: &mut Fram, program: &Accepted, layout: &Layout, j: usize)
    requires layout { IsLayout program.now layout.now }
    requires known { j < length program.now.timers }
    requires before { Holds program.now fram.old (with_blocks program.now (timed_word program.now j)) }
    ensures { Holds program.now fram.new (with_blocks program.now (timed_word program.now (j + 1))) }
{
    let timer = &program.program().timers.as_slice()[j];
    let (thread, due, period) = (timer.thread, first_due(timer.due), timer.period as u64);
    let due_at = Header::Due(j as u32).word();
    let period_at = Header::Period(j as u32).word();
    put_both(fram, program, layout, thread, due_at, due);
    put_both(fram, program, layout, thread, period_at, period);
}

// The word of a timer before the first charge.
fn first_due(due: Option<u32>) -> u64
    ensures { result ≡ held.due_word due }
{
    match due {
        Some(tick) => due_word(Some(tick as u64)),
        None => due_word(None),
    }
}

// Stores a word of a thread's header in both copies of its page.
fn put_both(
    fram: &mut Fram,
    program: &Accepted,
    layout: &Layout,
    thread: ThreadId,
    word: u32,
    value: u64,
)
    requires layout { IsLayout program.now layout.now }
    requires known { thread.0 < length program.now.threads }
    requires within { word < header.words }
    requires count { length fram.old ≡ words_of (shape_of program.now) }
    ensures stored { (block : ℕ → ℕ → ℕ) → Holds program.now fram.old (with_blocks program.now block) → Holds program.now fram.new (with_blocks program.now (put_word block thread.0 word value)) }
    ensures count { length fram.new ≡ words_of (shape_of program.now) }
{
    let (page, word) = (word / 8, word % 8);
    let first = Place::Page {
        thread,
        page,
        copy: 0,
        word,
    };
    let second = Place::Page {
        thread,
        page,
        copy: 1,
        word,
    };
    put(fram, program, layout, first, value);
    put(fram, program, layout, second, value);
}

// Stores a word of the board.
fn put(fram: &mut Fram, program: &Accepted, layout: &Layout, place: Place, word: u64)
    requires layout { IsLayout program.now layout.now }
    requires on_board { IsOnBoard program.now (place_of place) }
    requires count { length fram.old ≡ words_of (shape_of program.now) }
    ensures stored { (memory : Memory) → Holds program.now fram.old memory → Holds program.now fram.new (store memory (place_of place) word) }
    ensures count { length fram.new ≡ words_of (shape_of program.now) }
{
    fram.perform(Access::Store(address_of(program, layout, place), word));
}
