//! Marks of the offsets that need a label.

ghost use Rattle.std.specs.Prelude.{◌≡◌, true, length, slice_set, IfOk};
ghost use Rattle.program_text.specs.Marks.{AreMarks, with_mark};

use ink_base::NoMemory;
use std::alloc::Global;
use task_isa::Instr;

fn set(marks: &mut Vec<bool>, i: usize)
    ensures { marks.new.items ≡ slice_set marks.old.items i true }
{
    if i < marks.len() {
        marks[i] = true;
    }
}

fn mark(marks: &mut Vec<bool>, instr: Instr)
    ensures { marks.new.items ≡ with_mark marks.old.items instr }
{
    match instr {
        Instr::Jmp { i } => set(marks, i as usize),
        Instr::Jz { i, .. } => set(marks, i as usize),
        Instr::Jnz { i, .. } => set(marks, i as usize),
        _ => {}
    }
}

/// A mark for each offset of the code, set where a jump of the code goes there.
pub fn label_marks(alloc: Global, code: &[Instr]) -> Result<Vec<bool>, NoMemory>
    ensures { IfOk result (λ marks. AreMarks marks.items (length code.now) code.now) }
{
    let mut marks = vec![in alloc; false; code.len()]?;
    for instr in code {
        mark(&mut marks, *instr);
    }
    Ok(marks)
}
