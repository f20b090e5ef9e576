//! The words of instructions.

ghost use Rattle.std.specs.Prelude.{◌≡◌, ◌≢◌, ◌<◌, ◌^◌, Some, IfSome, IfNone};
ghost use Rattle.task_isa.specs.declared.instr.Instr.{Instr};
ghost use Rattle.task_isa.specs.Code.{word_with, word_of_instr, FitsWord, IsInstr, form_of, form_in, decoded};

use crate::instr::Instr;
use crate::reg::Reg;

/// The word of an instruction: the opcode in bits 0 to 7, the registers `a`, `b` and `c` in 8 to 11, 12 to 15 and 16 to 19, and the
/// number in 32 to 63. Bits that the instruction doesn't use are zero.
pub fn encode(instr: Instr) -> u64
    ensures word { result ≡ word_of_instr instr }
    ensures back { decoded result ≡ Some instr }
{
    word_of(&instr)
}

/// The instruction that has this word; none exactly where no instruction has it.
#[inline(always)]
pub fn decode(word: u64) -> Option<Instr>
    ensures computed { result ≡ decoded word }
    ensures some { IfSome result (λ instr. word_of_instr instr ≡ word) }
    ensures none { IfNone result ((instr : Instr) → IsInstr instr → word_of_instr instr ≢ word) }
{
    read_word(word)
}

// The instruction of the word's form, where it has the word.
#[inline(always)]
#[tactic(auto, unfolding(crate::specs::Code::decoded))]
fn read_word(word: u64) -> Option<Instr>
    ensures { result ≡ decoded word }
{
    match read_form(word) {
        Some(instr) if word_of(&instr) == word => Some(instr),
        _ => None,
    }
}

#[inline(always)]
fn word_of(instr: &Instr) -> u64
    ensures word { result ≡ word_of_instr instr.now }
    ensures fits { IsInstr instr.now }
{
    let no = Reg::new(0);
    match *instr {
        Instr::Li { a, i } => pack(1, a, no, no, i),
        Instr::Mov { a, b } => pack(2, a, b, no, 0),
        Instr::Add { a, b, c } => pack(3, a, b, c, 0),
        Instr::Sub { a, b, c } => pack(4, a, b, c, 0),
        Instr::Mul { a, b, c } => pack(5, a, b, c, 0),
        Instr::And { a, b, c } => pack(6, a, b, c, 0),
        Instr::Or { a, b, c } => pack(7, a, b, c, 0),
        Instr::Xor { a, b, c } => pack(8, a, b, c, 0),
        Instr::Shl { a, b, c } => pack(9, a, b, c, 0),
        Instr::Shr { a, b, c } => pack(10, a, b, c, 0),
        Instr::Divu { a, b, c } => pack(11, a, b, c, 0),
        Instr::Remu { a, b, c } => pack(12, a, b, c, 0),
        Instr::Ltu { a, b, c } => pack(13, a, b, c, 0),
        Instr::Eq { a, b, c } => pack(14, a, b, c, 0),
        Instr::Jmp { i } => pack(15, no, no, no, i),
        Instr::Jz { a, i } => pack(16, a, no, no, i),
        Instr::Jnz { a, i } => pack(17, a, no, no, i),
        Instr::Ev { a } => pack(18, a, no, no, 0),
        Instr::Kind { a } => pack(19, a, no, no, 0),
        Instr::Num { a } => pack(20, a, no, no, 0),
        Instr::Now { a } => pack(21, a, no, no, 0),
        Instr::Ld { a, b } => pack(22, a, b, no, 0),
        Instr::St { a, b } => pack(23, a, b, no, 0),
        Instr::Out { a } => pack(24, a, no, no, 0),
        Instr::Send { i, a, b } => pack(25, a, b, no, i),
        Instr::Arm { i, a, b } => pack(26, a, b, no, i),
        Instr::Stop { i } => pack(27, no, no, no, i),
        Instr::Next { i } => pack(28, no, no, no, i),
        Instr::Done => pack(29, no, no, no, 0),
    }
}

// The word with this opcode and these operands.
fn pack(op: u8, a: Reg, b: Reg, c: Reg, i: u32) -> u64
    ensures word { result ≡ word_with op a b c i }
    ensures fits { FitsWord a b c i }
{
    op as u64
        + ((a.number() as u64) << 8)
        + ((b.number() as u64) << 12)
        + ((c.number() as u64) << 16)
        + ((i as u64) << 32)
}

// The instruction that the opcode and the operands of the word make.
fn read_form(word: u64) -> Option<Instr>
    ensures { result ≡ form_in word }
{
    form(
        (word % 256) as u8,
        Reg::new(((word >> 8) % 16) as u8),
        Reg::new(((word >> 12) % 16) as u8),
        Reg::new(((word >> 16) % 16) as u8),
        (word >> 32) as u32,
    )
}

// The instruction with this opcode and these operands.
#[inline(always)]
#[tactic(auto, unfolding(crate::specs::Code::form_of))]
fn form(op: u8, a: Reg, b: Reg, c: Reg, i: u32) -> Option<Instr>
    ensures { result ≡ form_of op a b c i }
{
    match op {
        0 => None,
        1 => Some(Instr::Li { a, i }),
        2 => Some(Instr::Mov { a, b }),
        3 => Some(Instr::Add { a, b, c }),
        4 => Some(Instr::Sub { a, b, c }),
        5 => Some(Instr::Mul { a, b, c }),
        6 => Some(Instr::And { a, b, c }),
        7 => Some(Instr::Or { a, b, c }),
        8 => Some(Instr::Xor { a, b, c }),
        9 => Some(Instr::Shl { a, b, c }),
        10 => Some(Instr::Shr { a, b, c }),
        11 => Some(Instr::Divu { a, b, c }),
        12 => Some(Instr::Remu { a, b, c }),
        13 => Some(Instr::Ltu { a, b, c }),
        14 => Some(Instr::Eq { a, b, c }),
        15 => Some(Instr::Jmp { i }),
        16 => Some(Instr::Jz { a, i }),
        17 => Some(Instr::Jnz { a, i }),
        18 => Some(Instr::Ev { a }),
        19 => Some(Instr::Kind { a }),
        20 => Some(Instr::Num { a }),
        21 => Some(Instr::Now { a }),
        22 => Some(Instr::Ld { a, b }),
        23 => Some(Instr::St { a, b }),
        24 => Some(Instr::Out { a }),
        25 => Some(Instr::Send { i, a, b }),
        26 => Some(Instr::Arm { i, a, b }),
        27 => Some(Instr::Stop { i }),
        28 => Some(Instr::Next { i }),
        29 => Some(Instr::Done),
        30.. => None,
    }
}
