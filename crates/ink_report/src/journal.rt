//! The lines of entries.

ghost use Rattle.std.specs.Prelude.{◌≡◌, ◌++◌, ◌<◌, codes, decimal, All, length, OnOk};
ghost use Rattle.ink_report.specs.Conditions.{NamesPart};
ghost use Rattle.ink_report.specs.Journal.{source_entry, thread_entry, entry_line, entry_lines};

use crate::names::name_of;
use ink_base::{Entry, NoMemory, SourceId, ThreadId};
use ink_text::{put_count, put_name};
use task_isa::Program;

/// Appends a line for each entry. The entries name threads and sources of the program. Out of memory may be answered at any time.
pub fn put_entries(out: &mut Vec<u8>, program: &Program, entries: &[Entry]) -> Result<(), NoMemory>
    requires { All (NamesPart program.now) entries.now }
    ensures { OnOk result (out.new.items ≡ out.old.items ++ entry_lines program.now entries.now) }
{
    for entry in entries {
        put_entry(out, program, *entry)?;
    }
    Ok(())
}

fn put_entry(out: &mut Vec<u8>, program: &Program, entry: Entry) -> Result<(), NoMemory>
    requires { NamesPart program.now entry }
    ensures { OnOk result (out.new.items ≡ out.old.items ++ entry_line program.now entry) }
{
    match entry {
        Entry::Push { source } => put_source_entry(out, b"Push", source),
        Entry::Refuse { source } => put_source_entry(out, b"Refuse", source),
        Entry::Skip { source } => put_source_entry(out, b"Skip", source),
        Entry::Tick { by } => put_tick(out, by),
        Entry::Scan => put_scan(out),
        Entry::Look { thread } => put_thread_entry(out, program, b"Look", thread),
        Entry::Commit { thread } => put_thread_entry(out, program, b"Commit", thread),
        Entry::Release { thread } => put_thread_entry(out, program, b"Release", thread),
    }
}

fn put_source_entry(out: &mut Vec<u8>, kind: &[u8], source: SourceId) -> Result<(), NoMemory>
    ensures { OnOk result (out.new.items ≡ out.old.items ++ source_entry kind.now source) }
{
    out.extend_from_slice(kind)?;
    put_count(out, b" S", u64::from(source.0))?;
    out.push(b'\n')?;
    Ok(())
}

fn put_tick(out: &mut Vec<u8>, by: u64) -> Result<(), NoMemory>
    ensures { OnOk result (out.new.items ≡ out.old.items ++ codes "Tick " ++ decimal by ++ codes "\n") }
{
    put_count(out, b"Tick ", by)?;
    out.push(b'\n')?;
    Ok(())
}

fn put_scan(out: &mut Vec<u8>) -> Result<(), NoMemory>
    ensures { OnOk result (out.new.items ≡ out.old.items ++ codes "Scan\n") }
{
    out.extend_from_slice(b"Scan\n")?;
    Ok(())
}

fn put_thread_entry(
    out: &mut Vec<u8>,
    program: &Program,
    kind: &[u8],
    thread: ThreadId,
) -> Result<(), NoMemory>
    requires { thread.0 < length program.now.threads }
    ensures { OnOk result (out.new.items ≡ out.old.items ++ thread_entry program.now kind.now thread) }
{
    out.extend_from_slice(kind)?;
    put_name(out, b" ", name_of(program, thread))?;
    out.push(b'\n')?;
    Ok(())
}
