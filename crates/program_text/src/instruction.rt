//! Prints instructions.

ghost use Rattle.std.specs.Prelude.{◌≡◌, ◌++◌, OnOk};
ghost use Rattle.prog_check.specs.Lookup.{pipe_def, timer_def, task_def};
ghost use Rattle.task_isa.specs.Code.{IsInstr};
ghost use Rattle.program_text.specs.Print.{register_text, li_text, one_text, two_text, three_text, jump_text, device_text, instr_text};

use ink_base::NoMemory;
use ink_text::{put_count, put_name};
use task_isa::{Instr, Program, Reg};

fn pipe_name(program: &Program, i: u32) -> &[u8]
    ensures { result.now ≡ (pipe_def program.now i).name }
{
    match program.pipes.as_slice().get(i as usize) {
        Some(pipe) => pipe.name.as_bytes(),
        None => &[],
    }
}

fn timer_name(program: &Program, i: u32) -> &[u8]
    ensures { result.now ≡ (timer_def program.now i).name }
{
    match program.timers.as_slice().get(i as usize) {
        Some(timer) => timer.name.as_bytes(),
        None => &[],
    }
}

fn task_name(program: &Program, i: u32) -> &[u8]
    ensures { result.now ≡ (task_def program.now i).name }
{
    match program.tasks.as_slice().get(i as usize) {
        Some(task) => task.name.as_bytes(),
        None => &[],
    }
}

fn put_register(out: &mut Vec<u8>, register: Reg) -> Result<(), NoMemory>
    ensures { OnOk result (out.new.items ≡ out.old.items ++ register_text register) }
{
    put_count(out, b" r", u64::from(register.number()))
}

fn put_li(out: &mut Vec<u8>, a: Reg, i: u32) -> Result<(), NoMemory>
    ensures { OnOk result (out.new.items ≡ out.old.items ++ li_text a i) }
{
    out.extend_from_slice(b"li")?;
    put_register(out, a)?;
    put_count(out, b" ", u64::from(i))
}

fn put_one(out: &mut Vec<u8>, word: &[u8], a: Reg) -> Result<(), NoMemory>
    ensures { OnOk result (out.new.items ≡ out.old.items ++ one_text word.now a) }
{
    out.extend_from_slice(word)?;
    put_register(out, a)
}

fn put_two(out: &mut Vec<u8>, word: &[u8], a: Reg, b: Reg) -> Result<(), NoMemory>
    ensures { OnOk result (out.new.items ≡ out.old.items ++ two_text word.now a b) }
{
    out.extend_from_slice(word)?;
    put_register(out, a)?;
    put_register(out, b)
}

fn put_three(out: &mut Vec<u8>, word: &[u8], a: Reg, b: Reg, c: Reg) -> Result<(), NoMemory>
    ensures { OnOk result (out.new.items ≡ out.old.items ++ three_text word.now a b c) }
{
    out.extend_from_slice(word)?;
    put_register(out, a)?;
    put_register(out, b)?;
    put_register(out, c)
}

fn put_jump(out: &mut Vec<u8>, word: &[u8], a: Reg, i: u32) -> Result<(), NoMemory>
    ensures { OnOk result (out.new.items ≡ out.old.items ++ jump_text word.now a i) }
{
    out.extend_from_slice(word)?;
    put_register(out, a)?;
    put_count(out, b" L", u64::from(i))
}

fn put_device(out: &mut Vec<u8>, word: &[u8], name: &[u8], a: Reg, b: Reg) -> Result<(), NoMemory>
    ensures { OnOk result (out.new.items ≡ out.old.items ++ device_text word.now name.now a b) }
{
    put_name(out, word, name)?;
    put_register(out, a)?;
    put_register(out, b)
}

/// Appends an instruction: its word and its operands, which fit their bits as their types say.
#[tactic(auto, unfolding(crate::specs::Print::instr_text))]
pub fn put_instr(out: &mut Vec<u8>, program: &Program, instr: Instr) -> Result<(), NoMemory>
    ensures text { OnOk result (out.new.items ≡ out.old.items ++ instr_text program.now instr) }
    ensures fits { IsInstr instr }
{
    match instr {
        Instr::Li { a, i } => put_li(out, a, i),
        Instr::Mov { a, b } => put_two(out, b"mov", a, b),
        Instr::Add { a, b, c } => put_three(out, b"add", a, b, c),
        Instr::Sub { a, b, c } => put_three(out, b"sub", a, b, c),
        Instr::Mul { a, b, c } => put_three(out, b"mul", a, b, c),
        Instr::And { a, b, c } => put_three(out, b"and", a, b, c),
        Instr::Or { a, b, c } => put_three(out, b"or", a, b, c),
        Instr::Xor { a, b, c } => put_three(out, b"xor", a, b, c),
        Instr::Shl { a, b, c } => put_three(out, b"shl", a, b, c),
        Instr::Shr { a, b, c } => put_three(out, b"shr", a, b, c),
        Instr::Divu { a, b, c } => put_three(out, b"divu", a, b, c),
        Instr::Remu { a, b, c } => put_three(out, b"remu", a, b, c),
        Instr::Ltu { a, b, c } => put_three(out, b"ltu", a, b, c),
        Instr::Eq { a, b, c } => put_three(out, b"eq", a, b, c),
        Instr::Jmp { i } => put_count(out, b"jmp L", u64::from(i)),
        Instr::Jz { a, i } => put_jump(out, b"jz", a, i),
        Instr::Jnz { a, i } => put_jump(out, b"jnz", a, i),
        Instr::Ev { a } => put_one(out, b"ev", a),
        Instr::Kind { a } => put_one(out, b"kind", a),
        Instr::Num { a } => put_one(out, b"num", a),
        Instr::Now { a } => put_one(out, b"now", a),
        Instr::Ld { a, b } => put_two(out, b"ld", a, b),
        Instr::St { a, b } => put_two(out, b"st", a, b),
        Instr::Out { a } => put_one(out, b"out", a),
        Instr::Send { i, a, b } => put_device(out, b"send ", pipe_name(program, i), a, b),
        Instr::Arm { i, a, b } => put_device(out, b"arm ", timer_name(program, i), a, b),
        Instr::Stop { i } => put_name(out, b"stop ", timer_name(program, i)),
        Instr::Next { i } => put_name(out, b"next ", task_name(program, i)),
        Instr::Done => put_name(out, b"done", b""),
    }
}
