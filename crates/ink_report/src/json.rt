//! The summary as a line of JSON.

ghost use Rattle.std.specs.Prelude.{◌≡◌, ◌++◌, map, IfOk, OnOk};
ghost use Rattle.serde_json.specs.View.{view, members_view};
ghost use Rattle.ink_report.specs.Json.{source_data, thread_data, summary_data, json_line};
ghost use Rattle.ink_report.specs.kept.Members.{with_number, with_bounds};

use crate::charge_bounds::ChargeBounds;
use crate::summary::{SourceSummary, Summary, ThreadSummary};
use ink_base::NoMemory;
use serde_json::{Map, Value, json, put};
use std::alloc::Global;
use std::str;
use task_isa::Name;

/// Appends a summary as one line of JSON, and in it the bounds of a charge where they are given: an object without spaces and with its
/// keys in ascending order. Out of memory may be answered at any time.
pub fn put_json(
    out: &mut Vec<u8>,
    summary: &Summary,
    bounds: Option<ChargeBounds>,
) -> Result<(), NoMemory>
    ensures { OnOk result (out.new.items ≡ out.old.items ++ json_line bounds summary.now) }
{
    let alloc = *out.allocator();
    let text = summary_value(alloc, summary, bounds)?.to_string(alloc)?;
    out.extend_from_slice(text.as_bytes())?;
    out.push(b'\n')?;
    Ok(())
}

// The totals, the sources and the threads, and the bounds where they are given. A map has its keys in ascending order, whatever the order
// here.
fn summary_value(
    alloc: Global,
    summary: &Summary,
    bounds: Option<ChargeBounds>,
) -> Result<Value, NoMemory>
    ensures { IfOk result (λ value. view value ≡ summary_data bounds summary.now) }
{
    let sources = source_values(alloc, summary.sources.as_slice())?;
    let threads = thread_values(alloc, summary.threads.as_slice())?;
    let mut members = Map::new(alloc);
    put_number(&mut members, alloc, "charges", u64::from(summary.charges))?;
    put_number(&mut members, alloc, "clock", summary.clock)?;
    put_number(&mut members, alloc, "commits", summary.commits)?;
    put(&mut members, alloc, "sources", Value::Array(sources))?;
    put(&mut members, alloc, "threads", Value::Array(threads))?;
    put_bounds(&mut members, alloc, bounds)?;
    Ok(Value::Object(members))
}

// The bounds, where they are given.
fn put_bounds(
    members: &mut Map<String, Value>,
    alloc: Global,
    bounds: Option<ChargeBounds>,
) -> Result<(), NoMemory>
    ensures { OnOk result (members_view members.new.entries ≡ with_bounds bounds (members_view members.old.entries)) }
{
    if let Some(bounds) = bounds {
        put_number(members, alloc, "boot", bounds.boot)?;
        put_number(members, alloc, "round", bounds.round)?;
    }
    Ok(())
}

fn put_number(
    members: &mut Map<String, Value>,
    alloc: Global,
    key: &str,
    number: u64,
) -> Result<(), NoMemory>
    ensures { OnOk result (members_view members.new.entries ≡ with_number key.now number (members_view members.old.entries)) }
{
    put(members, alloc, key, Value::from(number))?;
    Ok(())
}

fn source_values(alloc: Global, sources: &[SourceSummary]) -> Result<Vec<Value>, NoMemory>
    ensures { IfOk result (λ values. map view values.items ≡ map source_data sources.now) }
{
    let mut values = Vec::new(alloc);
    for source in sources {
        values.push(source_value(alloc, *source)?)?;
    }
    Ok(values)
}

fn source_value(alloc: Global, source: SourceSummary) -> Result<Value, NoMemory>
    ensures { IfOk result (λ value. view value ≡ source_data source) }
{
    Ok(json!(in alloc; {
        "next": source.next,
        "pushed": source.pushed,
        "refused": source.refused,
    })?)
}

fn thread_values(alloc: Global, threads: &[ThreadSummary]) -> Result<Vec<Value>, NoMemory>
    ensures { IfOk result (λ values. map view values.items ≡ map thread_data threads.now) }
{
    let mut values = Vec::new(alloc);
    for thread in threads {
        values.push(thread_value(alloc, thread)?)?;
    }
    Ok(values)
}

fn thread_value(alloc: Global, thread: &ThreadSummary) -> Result<Value, NoMemory>
    ensures { IfOk result (λ value. view value ≡ thread_data thread.now) }
{
    Ok(json!(in alloc; {
        "expired": thread.expired,
        "held": thread.held,
        "name": text_of(&thread.name),
        "served": thread.served,
        "trapped": thread.trapped,
    })?)
}

// A name as text. It has letters, digits and `_` alone, so its bytes are UTF-8.
fn text_of(name: &Name) -> &str
    ensures { result.now ≡ name.now }
{
    str::from_utf8(name.as_bytes()).unwrap()
}
