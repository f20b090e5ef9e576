//! The operands of instructions, which fit their bits as their types keep.

ghost use Rattle.task_isa.specs.Code.{FitsWord, IsInstr};

use task_isa::{Instr, Reg};

/// The operands of an instruction fit their bits, as their types keep, so that its word is read back as it. Nothing is done.
#[inline(always)]
pub fn operands_fit(instr: &Instr)
    ensures { IsInstr instr.now }
{
    let no = Reg::new(0);
    match *instr {
        Instr::Add { a, b, c }
        | Instr::Sub { a, b, c }
        | Instr::Mul { a, b, c }
        | Instr::And { a, b, c }
        | Instr::Or { a, b, c }
        | Instr::Xor { a, b, c }
        | Instr::Shl { a, b, c }
        | Instr::Shr { a, b, c }
        | Instr::Divu { a, b, c }
        | Instr::Remu { a, b, c }
        | Instr::Ltu { a, b, c }
        | Instr::Eq { a, b, c } => fit(a, b, c, 0),
        Instr::Mov { a, b } | Instr::Ld { a, b } | Instr::St { a, b } => fit(a, b, no, 0),
        Instr::Ev { a }
        | Instr::Kind { a }
        | Instr::Num { a }
        | Instr::Now { a }
        | Instr::Out { a } => fit(a, no, no, 0),
        Instr::Li { a, i } | Instr::Jz { a, i } | Instr::Jnz { a, i } => fit(a, no, no, i),
        Instr::Send { i, a, b } | Instr::Arm { i, a, b } => fit(a, b, no, i),
        Instr::Jmp { i } | Instr::Stop { i } | Instr::Next { i } => fit(no, no, no, i),
        Instr::Done => fit(no, no, no, 0),
    }
}

#[inline(always)]
fn fit(a: Reg, b: Reg, c: Reg, i: u32)
    ensures { FitsWord a b c i }
{
    let _numbers = (a.number(), b.number(), c.number(), i);
}
