//! The table of the runs of a job that is cut at each of its turns, and its text.

ghost use Rattle.std.specs.Prelude.{◌≡◌, ◌++◌, IfOk, OnOk};
ghost use Rattle.ink_report.specs.Sweep.{row_line};
ghost use Rattle.ink_report.specs.Sweep.{sweep_text as text_of_table};

use ink_base::NoMemory;
use ink_text::put_count;
use sqlite_items::Items;
use std::alloc::Global;

/// What a run comes to whose first charge is cut to its first so many turns: how many outputs and commits there are at its end, and how
/// many events all queues hold that aren't released.
#[derive(Clone, Copy, Debug, PartialEq, Eq)]
pub struct SweepRow {
    pub cut: u32,
    pub outputs: u32,
    pub commits: u32,
    pub held: u32,
}

/// The rows of the runs of a job, in the order of their cuts, from none of the first charge's turns on.
#[derive(Drop)]
pub struct SweepTable {
    pub rows: Items<SweepRow>,
}

/// The text of a table: a line for each row, in order. Out of memory may be answered at any time.
pub fn sweep_text(alloc: Global, table: &SweepTable) -> Result<Vec<u8>, NoMemory>
    ensures { IfOk result (λ text. text.items ≡ text_of_table table.now) }
{
    let mut out = Vec::new(alloc);
    for row in table.rows.as_slice() {
        put_row(&mut out, *row)?;
    }
    Ok(out)
}

fn put_row(out: &mut Vec<u8>, row: SweepRow) -> Result<(), NoMemory>
    ensures { OnOk result (out.new.items ≡ out.old.items ++ row_line row) }
{
    put_count(out, b"cut ", u64::from(row.cut))?;
    put_count(out, b" outputs ", u64::from(row.outputs))?;
    put_count(out, b" commits ", u64::from(row.commits))?;
    put_count(out, b" held ", u64::from(row.held))?;
    out.push(b'\n')?;
    Ok(())
}
