//! The operands of instructions.

ghost use Rattle.std.specs.Prelude.{◌≡◌, ◌<◌, IfOk};
ghost use Rattle.ink_base.specs.Checks.{words_of};
ghost use Rattle.ink_base.specs.Gives.{Gives};
ghost use Rattle.task_lines.specs.Operands.{register_of, register_in, one_in, two_in, three_in, constant_in, target_in, register_target_in, jump_in, device_in, instr_in};
ghost use Rattle.task_lines.specs.Ops.{one_instr, two_instr, three_instr};

use crate::devices::{own_pipe, own_timer};
use crate::draft::{Draft, DraftInstr};
use crate::named::name_of;
use crate::op::{DeviceOp, JumpOp, OneOp, Op, ThreeOp, TwoOp};
use ink_base::checks::{end, first, is_digit, number};
use ink_base::{Cause, LineError, ThreadId, Token};
use std::alloc::Global;
use task_isa::{Instr, Name, Reg};

#[tactic(auto, unfolding(crate::specs::Operands::register_of))]
fn register_of(word: &[u8]) -> Result<u8, LineError>
    ensures given { Gives (λ x. x) result (register_of word.now) }
    ensures within { IfOk result (λ x. x < 16) }
{
    match word {
        [r, d] if *r == b'r' && is_digit(*d) => Ok(*d - 48),
        [r, t, d] if *r == b'r' && *t == b'1' && 48 <= *d && *d <= 53 => Ok(*d - 38),
        _ => Err(LineError::Fault(Cause::UnknownWord)),
    }
}

#[tactic(auto, unfolding(crate::specs::Operands::register_in))]
fn register<'a>(text: &'a [u8], words: &'a [Token]) -> Result<(u8, &'a [Token]), LineError>
    ensures within { IfOk result (λ x. x.0 < 16) }
    ensures given { Gives (λ x. (x.0, words_of text.now x.1.now)) result (register_in (words_of text.now words.now)) }
{
    let (word, rest) = first(text, words)?;
    let r = register_of(word)?;
    Ok((r, rest))
}

#[tactic(auto, unfolding(crate::specs::Operands::one_in))]
fn one<'a>(text: &'a [u8], words: &'a [Token]) -> Result<Reg, LineError>
    ensures { Gives (λ x. x) result (one_in (words_of text.now words.now)) }
{
    let (a, rest) = register(text, words)?;
    end(text, rest)?;
    Ok(Reg::new(a))
}

#[tactic(auto, unfolding(crate::specs::Operands::two_in))]
fn two<'a>(text: &'a [u8], words: &'a [Token]) -> Result<(Reg, Reg), LineError>
    ensures { Gives (λ x. x) result (two_in (words_of text.now words.now)) }
{
    let (a, rest) = register(text, words)?;
    let b = one(text, rest)?;
    Ok((Reg::new(a), b))
}

#[tactic(auto, unfolding(crate::specs::Operands::three_in))]
fn three<'a>(text: &'a [u8], words: &'a [Token]) -> Result<(Reg, Reg, Reg), LineError>
    ensures { Gives (λ x. x) result (three_in (words_of text.now words.now)) }
{
    let (a, rest) = register(text, words)?;
    let (b, c) = two(text, rest)?;
    Ok((Reg::new(a), b, c))
}

#[tactic(auto, unfolding(crate::specs::Operands::constant_in))]
fn constant<'a>(text: &'a [u8], words: &'a [Token]) -> Result<(Reg, u32), LineError>
    ensures { Gives (λ x. x) result (constant_in (words_of text.now words.now)) }
{
    let (a, rest) = register(text, words)?;
    let (i, rest) = number(text, rest, 0, u64::from(u32::MAX))?;
    end(text, rest)?;
    Ok((Reg::new(a), i as u32))
}

fn one_instr(op: OneOp, a: Reg) -> Instr
    ensures { result ≡ one_instr op a }
{
    match op {
        OneOp::Ev => Instr::Ev { a },
        OneOp::Kind => Instr::Kind { a },
        OneOp::Num => Instr::Num { a },
        OneOp::Now => Instr::Now { a },
        OneOp::Out => Instr::Out { a },
    }
}

fn two_instr(op: TwoOp, a: Reg, b: Reg) -> Instr
    ensures { result ≡ two_instr op a b }
{
    match op {
        TwoOp::Mov => Instr::Mov { a, b },
        TwoOp::Ld => Instr::Ld { a, b },
        TwoOp::St => Instr::St { a, b },
    }
}

fn three_instr(op: ThreeOp, a: Reg, b: Reg, c: Reg) -> Instr
    ensures { result ≡ three_instr op a b c }
{
    match op {
        ThreeOp::Add => Instr::Add { a, b, c },
        ThreeOp::Sub => Instr::Sub { a, b, c },
        ThreeOp::Mul => Instr::Mul { a, b, c },
        ThreeOp::And => Instr::And { a, b, c },
        ThreeOp::Or => Instr::Or { a, b, c },
        ThreeOp::Xor => Instr::Xor { a, b, c },
        ThreeOp::Shl => Instr::Shl { a, b, c },
        ThreeOp::Shr => Instr::Shr { a, b, c },
        ThreeOp::Divu => Instr::Divu { a, b, c },
        ThreeOp::Remu => Instr::Remu { a, b, c },
        ThreeOp::Ltu => Instr::Ltu { a, b, c },
        ThreeOp::Eq => Instr::Eq { a, b, c },
    }
}

#[tactic(auto, unfolding(crate::specs::Operands::target_in))]
fn target(alloc: Global, text: &[u8], words: &[Token]) -> Result<Name, LineError>
    ensures { Gives (λ x. x) result (target_in (words_of text.now words.now)) }
{
    let (word, rest) = first(text, words)?;
    let name = name_of(alloc, word)?;
    end(text, rest)?;
    Ok(name)
}

#[tactic(auto, unfolding(crate::specs::Operands::register_target_in))]
fn register_target(alloc: Global, text: &[u8], words: &[Token]) -> Result<(Reg, Name), LineError>
    ensures { Gives (λ x. x) result (register_target_in (words_of text.now words.now)) }
{
    let (a, rest) = register(text, words)?;
    let target = target(alloc, text, rest)?;
    Ok((Reg::new(a), target))
}

#[tactic(auto, unfolding(crate::specs::Operands::jump_in))]
fn jump(alloc: Global, op: JumpOp, text: &[u8], words: &[Token]) -> Result<DraftInstr, LineError>
    ensures { Gives (λ x. x) result (jump_in op (words_of text.now words.now)) }
{
    match op {
        JumpOp::Jmp => {
            let target = target(alloc, text, words)?;
            Ok(DraftInstr::Jmp { target })
        }
        JumpOp::Jz => {
            let (a, target) = register_target(alloc, text, words)?;
            Ok(DraftInstr::Jz { a, target })
        }
        JumpOp::Jnz => {
            let (a, target) = register_target(alloc, text, words)?;
            Ok(DraftInstr::Jnz { a, target })
        }
    }
}

#[tactic(auto, unfolding(crate::specs::Operands::device_in))]
fn device(
    draft: &Draft,
    thread: ThreadId,
    op: DeviceOp,
    text: &[u8],
    words: &[Token],
) -> Result<Instr, LineError>
    ensures { Gives (λ x. x) result (device_in draft.now thread op (words_of text.now words.now)) }
{
    match op {
        DeviceOp::Send => {
            let (i, rest) = own_pipe(text, words, &draft.pipes, thread)?;
            let (a, b) = two(text, rest)?;
            Ok(Instr::Send { i, a, b })
        }
        DeviceOp::Arm => {
            let (i, rest) = own_timer(text, words, &draft.timers, thread)?;
            let (a, b) = two(text, rest)?;
            Ok(Instr::Arm { i, a, b })
        }
        DeviceOp::Stop => {
            let (i, rest) = own_timer(text, words, &draft.timers, thread)?;
            end(text, rest)?;
            Ok(Instr::Stop { i })
        }
    }
}

/// The instruction of a word in a task of the thread, with the operands behind it. Refused by the first fault from the left.
#[tactic(auto, unfolding(crate::specs::Operands::instr_in))]
pub fn read_operands(
    alloc: Global,
    draft: &Draft,
    thread: ThreadId,
    op: Op,
    text: &[u8],
    words: &[Token],
) -> Result<DraftInstr, LineError>
    ensures { Gives (λ x. x) result (instr_in draft.now thread op (words_of text.now words.now)) }
{
    match op {
        Op::Li => {
            let (a, i) = constant(text, words)?;
            Ok(DraftInstr::Ready(Instr::Li { a, i }))
        }
        Op::One(op) => {
            let a = one(text, words)?;
            Ok(DraftInstr::Ready(one_instr(op, a)))
        }
        Op::Two(op) => {
            let (a, b) = two(text, words)?;
            Ok(DraftInstr::Ready(two_instr(op, a, b)))
        }
        Op::Three(op) => {
            let (a, b, c) = three(text, words)?;
            Ok(DraftInstr::Ready(three_instr(op, a, b, c)))
        }
        Op::Jump(op) => jump(alloc, op, text, words),
        Op::Device(op) => {
            let instr = device(draft, thread, op, text, words)?;
            Ok(DraftInstr::Ready(instr))
        }
        Op::Next => {
            let task = target(alloc, text, words)?;
            Ok(DraftInstr::Next { task })
        }
        Op::Done => {
            end(text, words)?;
            Ok(DraftInstr::Ready(Instr::Done))
        }
    }
}
