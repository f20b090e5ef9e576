//! The words of instructions.

ghost use Rattle.std.specs.Prelude.{◌≡◌};
ghost use Rattle.ink_base.specs.Gives.{Gives};
ghost use Rattle.task_lines.specs.Ops.{one_op, two_op, three_op, register_op, other_op, op_of};

use ink_base::{Cause, LineError};

/// An instruction with one register.
#[derive(Clone, Copy)]
pub enum OneOp {
    Ev,
    Kind,
    Num,
    Now,
    Out,
}

/// An instruction with two registers.
#[derive(Clone, Copy)]
pub enum TwoOp {
    Mov,
    Ld,
    St,
}

/// An instruction with three registers.
#[derive(Clone, Copy)]
pub enum ThreeOp {
    Add,
    Sub,
    Mul,
    And,
    Or,
    Xor,
    Shl,
    Shr,
    Divu,
    Remu,
    Ltu,
    Eq,
}

/// A jump to a label.
#[derive(Clone, Copy)]
pub enum JumpOp {
    Jmp,
    Jz,
    Jnz,
}

/// An instruction on a pipe or timer.
#[derive(Clone, Copy)]
pub enum DeviceOp {
    Send,
    Arm,
    Stop,
}

/// What an instruction does, by its word.
#[derive(Clone, Copy)]
pub enum Op {
    Li,
    One(OneOp),
    Two(TwoOp),
    Three(ThreeOp),
    Jump(JumpOp),
    Device(DeviceOp),
    Next,
    Done,
}

#[tactic(auto, unfolding(crate::specs::Ops::one_op))]
fn one_op(word: &[u8]) -> Option<OneOp>
    ensures { result ≡ one_op word.now }
{
    if word == b"ev".as_slice() {
        Some(OneOp::Ev)
    } else if word == b"kind".as_slice() {
        Some(OneOp::Kind)
    } else if word == b"num".as_slice() {
        Some(OneOp::Num)
    } else if word == b"now".as_slice() {
        Some(OneOp::Now)
    } else if word == b"out".as_slice() {
        Some(OneOp::Out)
    } else {
        None
    }
}

#[tactic(auto, unfolding(crate::specs::Ops::two_op))]
fn two_op(word: &[u8]) -> Option<TwoOp>
    ensures { result ≡ two_op word.now }
{
    if word == b"mov".as_slice() {
        Some(TwoOp::Mov)
    } else if word == b"ld".as_slice() {
        Some(TwoOp::Ld)
    } else if word == b"st".as_slice() {
        Some(TwoOp::St)
    } else {
        None
    }
}

#[tactic(auto, unfolding(crate::specs::Ops::three_op))]
fn three_op(word: &[u8]) -> Option<ThreeOp>
    ensures { result ≡ three_op word.now }
{
    if word == b"add".as_slice() {
        Some(ThreeOp::Add)
    } else if word == b"sub".as_slice() {
        Some(ThreeOp::Sub)
    } else if word == b"mul".as_slice() {
        Some(ThreeOp::Mul)
    } else if word == b"and".as_slice() {
        Some(ThreeOp::And)
    } else if word == b"or".as_slice() {
        Some(ThreeOp::Or)
    } else if word == b"xor".as_slice() {
        Some(ThreeOp::Xor)
    } else if word == b"shl".as_slice() {
        Some(ThreeOp::Shl)
    } else if word == b"shr".as_slice() {
        Some(ThreeOp::Shr)
    } else if word == b"divu".as_slice() {
        Some(ThreeOp::Divu)
    } else if word == b"remu".as_slice() {
        Some(ThreeOp::Remu)
    } else if word == b"ltu".as_slice() {
        Some(ThreeOp::Ltu)
    } else if word == b"eq".as_slice() {
        Some(ThreeOp::Eq)
    } else {
        None
    }
}

fn register_op(word: &[u8]) -> Option<Op>
    ensures { result ≡ register_op word.now }
{
    if let Some(op) = one_op(word) {
        return Some(Op::One(op));
    }
    if let Some(op) = two_op(word) {
        return Some(Op::Two(op));
    }
    match three_op(word) {
        Some(op) => Some(Op::Three(op)),
        None => None,
    }
}

#[tactic(auto, unfolding(crate::specs::Ops::other_op))]
fn other_op(word: &[u8]) -> Option<Op>
    ensures { result ≡ other_op word.now }
{
    if word == b"li".as_slice() {
        Some(Op::Li)
    } else if word == b"jmp".as_slice() {
        Some(Op::Jump(JumpOp::Jmp))
    } else if word == b"jz".as_slice() {
        Some(Op::Jump(JumpOp::Jz))
    } else if word == b"jnz".as_slice() {
        Some(Op::Jump(JumpOp::Jnz))
    } else if word == b"send".as_slice() {
        Some(Op::Device(DeviceOp::Send))
    } else if word == b"arm".as_slice() {
        Some(Op::Device(DeviceOp::Arm))
    } else if word == b"stop".as_slice() {
        Some(Op::Device(DeviceOp::Stop))
    } else if word == b"next".as_slice() {
        Some(Op::Next)
    } else if word == b"done".as_slice() {
        Some(Op::Done)
    } else {
        None
    }
}

/// The instruction of a word. Refused where it is none: `UnknownWord`.
#[tactic(auto, unfolding(crate::specs::Ops::op_of))]
pub fn op_of(word: &[u8]) -> Result<Op, LineError>
    ensures { Gives (λ x. x) result (op_of word.now) }
{
    if let Some(op) = register_op(word) {
        return Ok(op);
    }
    match other_op(word) {
        Some(op) => Ok(op),
        None => Err(LineError::Fault(Cause::UnknownWord)),
    }
}
