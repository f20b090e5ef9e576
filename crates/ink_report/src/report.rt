//! The text of a run.

ghost use Rattle.std.specs.Prelude.{◌≡◌, ◌++◌, All, IfOk, OnOk};
ghost use Rattle.ink_report.specs.Conditions.{NamesThread, NamesPart, IsReportable};
ghost use Rattle.ink_report.specs.Report.{head, outputs_part, summary_part, header_part, entries_part};
ghost use Rattle.ink_report.specs.Report.{run_text as text_of_run};

use crate::charge_bounds::bounds_shown;
use crate::flags::Flags;
use crate::journal::put_entries;
use crate::json::put_json;
use crate::lines::{put_bounds, put_outputs, put_summary};
use crate::summary::Summary;
use ink_base::{Entry, NoMemory, Output};
use never_cut::Model;
use prog_check::Accepted;
use std::alloc::Global;
use task_isa::Program;

/// The text of a run of so many charges that wrote these entries in its journal and came to this state of its program: the outputs in
/// order, a line for each thread and each source, and a line of the clock, the commits and the charges. With a seed the outputs are left
/// out, with `bounds` a line of the bounds of a charge follows, with `json` one line of JSON stands in place of the summary and of the
/// bounds, and with `journal` a line for each entry follows. The state has as many threads and sources as the program, and its outputs and
/// the entries name threads and sources of the program; whether the image is asked for changes nothing. Out of memory may be answered at
/// any time.
pub fn run_text(
    alloc: Global,
    program: &Accepted,
    model: &Model,
    entries: &[Entry],
    charges: u32,
    flags: Flags,
) -> Result<Vec<u8>, NoMemory>
    requires { IsReportable program.now model.now entries.now }
    ensures { IfOk result (λ text. text.items ≡ text_of_run program.now model.now entries.now charges flags) }
{
    let mut summary = Summary::begin(alloc, program, model, charges)?;
    summary.count(entries);
    let mut out = Vec::new(alloc);
    put_head(&mut out, program, model.outputs.as_slice(), &summary, flags)?;
    put_entries_part(&mut out, program.program(), entries, flags)?;
    Ok(out)
}

/// Appends what a text shows before its entries: the outputs in order, but none with a seed; the summary, and with `bounds` the bounds of
/// a charge, as lines, or with `json` as JSON; and with `journal` the line `[journal]`, behind which the entries belong. The outputs name
/// threads of the program. Out of memory may be answered at any time.
pub fn put_head(
    out: &mut Vec<u8>,
    program: &Accepted,
    outputs: &[Output],
    summary: &Summary,
    flags: Flags,
) -> Result<(), NoMemory>
    requires { All (NamesThread program.now) outputs.now }
    ensures { OnOk result (out.new.items ≡ out.old.items ++ head program.now outputs.now summary.now flags) }
{
    put_outputs_part(out, program.program(), outputs, flags)?;
    put_summary_part(out, program, summary, flags)?;
    put_header_part(out, flags)
}

fn put_outputs_part(
    out: &mut Vec<u8>,
    program: &Program,
    outputs: &[Output],
    flags: Flags,
) -> Result<(), NoMemory>
    requires { All (NamesThread program.now) outputs.now }
    ensures { OnOk result (out.new.items ≡ out.old.items ++ outputs_part program.now outputs.now flags) }
{
    match flags.seed {
        None => put_outputs(out, program, outputs),
        Some(_) => Ok(()),
    }
}

fn put_summary_part(
    out: &mut Vec<u8>,
    program: &Accepted,
    summary: &Summary,
    flags: Flags,
) -> Result<(), NoMemory>
    ensures { OnOk result (out.new.items ≡ out.old.items ++ summary_part program.now summary.now flags) }
{
    let bounds = bounds_shown(program, flags);
    if flags.json {
        put_json(out, summary, bounds)
    } else {
        put_summary(out, summary)?;
        put_bounds(out, bounds)
    }
}

fn put_header_part(out: &mut Vec<u8>, flags: Flags) -> Result<(), NoMemory>
    ensures { OnOk result (out.new.items ≡ out.old.items ++ header_part flags) }
{
    if flags.journal {
        out.extend_from_slice(b"[journal]\n")?;
    }
    Ok(())
}

fn put_entries_part(
    out: &mut Vec<u8>,
    program: &Program,
    entries: &[Entry],
    flags: Flags,
) -> Result<(), NoMemory>
    requires { All (NamesPart program.now) entries.now }
    ensures { OnOk result (out.new.items ≡ out.old.items ++ entries_part program.now entries.now flags) }
{
    if flags.journal {
        put_entries(out, program, entries)
    } else {
        Ok(())
    }
}
