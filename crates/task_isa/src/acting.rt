//! What an instruction does, read off the registers and the event.

ghost use Rattle.std.specs.Prelude.{◌≡◌, ◌+◌, ◌-◌, ◌/◌, ◌%◌, ◌^◌, ◌<◌, if◌then◌else◌};
ghost use Rattle.task_isa.specs.Acts.{act_of, bit_of, divided, kind_of, number_of};

use crate::act::Act;
use crate::instr::Instr;
use crate::outcome::TrapCode;
use crate::reg::Reg;
use ink_base::{Event, Origin};

/// What the instruction at offset `at` does, given the event that is served, the scan's time in ticks and the sixteen registers.
#[inline(always)]
#[tactic(auto, unfolding(crate::specs::Acts::act_of))]
pub fn act_for(instr: Instr, event: &Event, time: u64, at: u32, registers: &[u32; 16]) -> Act
    requires { at < 2 ^ 32 - 1 }
    ensures { result ≡ act_of instr (record { event = event.now; time = time }) (record { at = at; registers = registers.now }) }
{
    let read = |register: Reg| registers[register.number() as usize];
    match instr {
        Instr::Li { a, i } => sets(a, i),
        Instr::Mov { a, b } => sets(a, read(b)),
        Instr::Add { a, b, c } => sets(a, read(b).wrapping_add(read(c))),
        Instr::Sub { a, b, c } => sets(a, read(b).wrapping_sub(read(c))),
        Instr::Mul { a, b, c } => sets(a, read(b).wrapping_mul(read(c))),
        Instr::And { a, b, c } => sets(a, read(b) & read(c)),
        Instr::Or { a, b, c } => sets(a, read(b) | read(c)),
        Instr::Xor { a, b, c } => sets(a, read(b) ^ read(c)),
        Instr::Shl { a, b, c } => sets(a, read(b).wrapping_shl(read(c))),
        Instr::Shr { a, b, c } => sets(a, read(b).wrapping_shr(read(c))),
        Instr::Divu { a, b, c } => quotient(a, read(b), read(c)),
        Instr::Remu { a, b, c } => remainder(a, read(b), read(c)),
        Instr::Ltu { a, b, c } => sets(a, bit(read(b) < read(c))),
        Instr::Eq { a, b, c } => sets(a, bit(read(b) == read(c))),
        Instr::Jmp { i } => Act::Goes { offset: i },
        Instr::Jz { a, i } => jump(read(a) == 0, i, at),
        Instr::Jnz { a, i } => jump(read(a) != 0, i, at),
        Instr::Ev { a } => sets(a, event.value),
        Instr::Kind { a } => sets(a, kind(event.origin)),
        Instr::Num { a } => sets(a, number(event.origin)),
        Instr::Now { a } => sets(a, low(time)),
        Instr::Ld { a, b } => Act::Loads {
            register: a,
            index: read(b),
        },
        Instr::St { a, b } => Act::Saves {
            index: read(b),
            value: read(a),
        },
        Instr::Out { a } => Act::Puts { value: read(a) },
        Instr::Send { i, a, b } => Act::Sends {
            pipe: i,
            register: a,
            value: read(b),
        },
        Instr::Arm { i, a, b } => Act::Arms {
            timer: i,
            delay: read(a),
            period: read(b),
        },
        Instr::Stop { i } => Act::Stops { timer: i },
        Instr::Next { i } => Act::Continues { task: i },
        Instr::Done => Act::Ends,
    }
}

fn sets(register: Reg, value: u32) -> Act
    ensures { result ≡ Act.Sets register value }
{
    Act::Sets { register, value }
}

// Goes to an offset where a test holds, else to the next instruction.
fn jump(test: bool, offset: u32, at: u32) -> Act
    requires { at < 2 ^ 32 - 1 }
    ensures { result ≡ Act.Goes (if test then offset else at + 1) }
{
    Act::Goes {
        offset: if test { offset } else { at + 1 },
    }
}

fn quotient(a: Reg, b: u32, c: u32) -> Act
    ensures { result ≡ divided c (Act.Sets a (b / c)) }
{
    match b.checked_div(c) {
        Some(value) => sets(a, value),
        None => Act::Traps {
            code: TrapCode::Divisor,
        },
    }
}

fn remainder(a: Reg, b: u32, c: u32) -> Act
    ensures { result ≡ divided c (Act.Sets a (b % c)) }
{
    match b.checked_rem(c) {
        Some(value) => sets(a, value),
        None => Act::Traps {
            code: TrapCode::Divisor,
        },
    }
}

fn bit(test: bool) -> u32
    ensures { result ≡ bit_of test }
{
    if test { 1 } else { 0 }
}

fn low(time: u64) -> u32
    ensures { result ≡ time % 2 ^ 32 }
{
    (time % (1 << 32)) as u32
}

fn kind(origin: Origin) -> u32
    ensures { result ≡ kind_of origin }
{
    match origin {
        Origin::Source {
            source: _,
            count: _,
        } => 1,
        Origin::Pipe { pipe: _, item: _ } => 2,
        Origin::Timer {
            timer: _,
            deadline: _,
        } => 3,
    }
}

fn number(origin: Origin) -> u32
    ensures { result ≡ number_of origin }
{
    match origin {
        Origin::Source { source, count: _ } => u32::from(source.0),
        Origin::Pipe { pipe, item: _ } => u32::from(pipe.0),
        Origin::Timer { timer, deadline: _ } => u32::from(timer.0),
    }
}
