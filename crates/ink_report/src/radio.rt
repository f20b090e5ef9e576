//! The text of a radio.

ghost use Rattle.std.specs.Prelude.{◌≡◌, ◌++◌, All, IfOk, OnOk};
ghost use Rattle.ink_report.specs.Conditions.{NamesThread};
ghost use Rattle.ink_report.specs.Radio.{base_line};
ghost use Rattle.ink_report.specs.Radio.{radio_text as text_of_radio};

use crate::lines::put_outputs;
use ink_base::NoMemory;
use ink_radio::RadioRecord;
use ink_text::put_count;
use std::alloc::Global;
use task_isa::Program;

/// The text of a radio over the outputs of a run of this program: a line for each output that the base has saved, in order, and a line of how many
/// are saved and fresh, how many the node knows as saved, how many it sent, and how many packets there are. The outputs name threads of the
/// program. Out of memory may be answered at any time.
pub fn radio_text(alloc: Global, program: &Program, told: &RadioRecord) -> Result<Vec<u8>, NoMemory>
    requires { All (NamesThread program.now) told.now.saved }
    ensures { IfOk result (λ text. text.items ≡ text_of_radio program.now told.now) }
{
    let mut out = Vec::new(alloc);
    put_outputs(&mut out, program, told.saved.as_slice())?;
    put_base(&mut out, told)?;
    Ok(out)
}

fn put_base(out: &mut Vec<u8>, told: &RadioRecord) -> Result<(), NoMemory>
    ensures { OnOk result (out.new.items ≡ out.old.items ++ base_line told.now) }
{
    put_count(out, b"base ", told.saved.len() as u64)?;
    put_count(out, b" fresh ", told.fresh.len() as u64)?;
    put_count(out, b" acked ", u64::from(told.acked))?;
    put_count(out, b" sent ", u64::from(told.sent))?;
    put_count(out, b" air ", told.air.len() as u64)?;
    out.push(b'\n')?;
    Ok(())
}
