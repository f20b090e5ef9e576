//! The lines of outputs and of a summary.

ghost use Rattle.std.specs.Prelude.{◌≡◌, ◌++◌, All, flat_map, OnOk};
ghost use Rattle.ink_report.specs.Conditions.{NamesThread};
ghost use Rattle.ink_report.specs.Lines.{output_line, output_lines, thread_line, source_line, totals_line, summary_lines, bounds_line, bounds_lines};

use crate::charge_bounds::ChargeBounds;
use crate::names::name_of;
use crate::summary::{SourceSummary, Summary, ThreadSummary};
use ink_base::{NoMemory, Output};
use ink_text::{put_count, put_name, put_number};
use task_isa::Program;

// Appends a line for each output.
pub fn put_outputs(out: &mut Vec<u8>, program: &Program, outputs: &[Output]) -> Result<(), NoMemory>
    requires { All (NamesThread program.now) outputs.now }
    ensures { OnOk result (out.new.items ≡ out.old.items ++ output_lines program.now outputs.now) }
{
    for output in outputs {
        put_output(out, program, *output)?;
    }
    Ok(())
}

fn put_output(out: &mut Vec<u8>, program: &Program, output: Output) -> Result<(), NoMemory>
    requires { NamesThread program.now output }
    ensures { OnOk result (out.new.items ≡ out.old.items ++ output_line program.now output) }
{
    put_number(out, output.stamp)?;
    put_name(out, b" ", name_of(program, output.thread))?;
    put_count(out, b" ", u64::from(output.value))?;
    out.push(b'\n')?;
    Ok(())
}

/// Appends a summary as lines: one for each thread, one for each source, and one of the clock, the commits and the charges. Out of
/// memory may be answered at any time.
pub fn put_summary(out: &mut Vec<u8>, summary: &Summary) -> Result<(), NoMemory>
    ensures { OnOk result (out.new.items ≡ out.old.items ++ summary_lines summary.now) }
{
    put_threads(out, summary.threads.as_slice())?;
    put_sources(out, summary.sources.as_slice())?;
    put_totals(out, summary)
}

fn put_threads(out: &mut Vec<u8>, threads: &[ThreadSummary]) -> Result<(), NoMemory>
    ensures { OnOk result (out.new.items ≡ out.old.items ++ flat_map thread_line threads.now) }
{
    for thread in threads {
        put_thread(out, thread)?;
    }
    Ok(())
}

fn put_thread(out: &mut Vec<u8>, thread: &ThreadSummary) -> Result<(), NoMemory>
    ensures { OnOk result (out.new.items ≡ out.old.items ++ thread_line thread.now) }
{
    put_name(out, b"thread ", thread.name.as_bytes())?;
    put_count(out, b" served ", thread.served)?;
    put_count(out, b" trapped ", thread.trapped)?;
    put_count(out, b" expired ", thread.expired)?;
    put_count(out, b" held ", thread.held)?;
    out.push(b'\n')?;
    Ok(())
}

fn put_sources(out: &mut Vec<u8>, sources: &[SourceSummary]) -> Result<(), NoMemory>
    ensures { OnOk result (out.new.items ≡ out.old.items ++ flat_map source_line sources.now) }
{
    for source in sources {
        put_source(out, *source)?;
    }
    Ok(())
}

fn put_source(out: &mut Vec<u8>, source: SourceSummary) -> Result<(), NoMemory>
    ensures { OnOk result (out.new.items ≡ out.old.items ++ source_line source) }
{
    put_count(out, b"source S", u64::from(source.source.0))?;
    put_count(out, b" next ", u64::from(source.next))?;
    put_count(out, b" pushed ", source.pushed)?;
    put_count(out, b" refused ", source.refused)?;
    out.push(b'\n')?;
    Ok(())
}

fn put_totals(out: &mut Vec<u8>, summary: &Summary) -> Result<(), NoMemory>
    ensures { OnOk result (out.new.items ≡ out.old.items ++ totals_line summary.now) }
{
    put_count(out, b"clock ", summary.clock)?;
    put_count(out, b" commits ", summary.commits)?;
    put_count(out, b" charges ", u64::from(summary.charges))?;
    out.push(b'\n')?;
    Ok(())
}

// Appends the line of the bounds of a charge, where they are given.
pub fn put_bounds(out: &mut Vec<u8>, bounds: Option<ChargeBounds>) -> Result<(), NoMemory>
    ensures { OnOk result (out.new.items ≡ out.old.items ++ bounds_lines bounds) }
{
    match bounds {
        None => Ok(()),
        Some(bounds) => put_bounds_line(out, bounds),
    }
}

fn put_bounds_line(out: &mut Vec<u8>, bounds: ChargeBounds) -> Result<(), NoMemory>
    ensures { OnOk result (out.new.items ≡ out.old.items ++ bounds_line bounds) }
{
    put_count(out, b"bounds boot ", bounds.boot)?;
    put_count(out, b" round ", bounds.round)?;
    out.push(b'\n')?;
    Ok(())
}
