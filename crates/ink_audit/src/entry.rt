//! The entry that a line tells.

ghost use Rattle.std.specs.Prelude.{◌≡◌, ◌≢◌, ◌++◌, List, ℕ, MatchOption};
ghost use Rattle.prog_check.specs.Accepted.{IsAccepted};
ghost use Rattle.ink_audit.specs.Claim.{IsLineOf, IsNoLine};

use crate::operands::{source, thread, ticks};
use ink_base::Entry;
use prog_check::Accepted;
use task_isa::Program;

/// The entry that has this line, given without its line feed. None exactly where the line is that of no entry that names parts of the
/// program and counts its ticks in 64 bits: a journal's text has each entry in one spelling, with names of the program, single spaces, and
/// numbers without leading zeros.
pub fn read_entry(program: &Accepted, line: &[u8]) -> Option<Entry>
    ensures { MatchOption result (IsNoLine program.now line.now) (λ e. IsLineOf program.now e line.now) }
{
    entry_in(program.program(), line)
}

fn entry_in(program: &Program, line: &[u8]) -> Option<Entry>
    requires { IsAccepted program.now }
    ensures { MatchOption result (IsNoLine program.now line.now) (λ e. IsLineOf program.now e line.now) }
{
    if let Some(word) = behind(line, b"Push ") {
        source(program, word).map(|source| Entry::Push { source })
    } else if let Some(word) = behind(line, b"Refuse ") {
        source(program, word).map(|source| Entry::Refuse { source })
    } else if let Some(word) = behind(line, b"Skip ") {
        source(program, word).map(|source| Entry::Skip { source })
    } else if let Some(word) = behind(line, b"Tick ") {
        ticks(word).map(|by| Entry::Tick { by })
    } else if let Some(word) = behind(line, b"Look ") {
        thread(program, word).map(|thread| Entry::Look { thread })
    } else if let Some(word) = behind(line, b"Commit ") {
        thread(program, word).map(|thread| Entry::Commit { thread })
    } else if let Some(word) = behind(line, b"Release ") {
        thread(program, word).map(|thread| Entry::Release { thread })
    } else if line == b"Scan".as_slice() {
        Some(Entry::Scan)
    } else {
        None
    }
}

// What stands in a line behind these bytes, where it begins with them.
fn behind<'a>(line: &'a [u8], first: &[u8]) -> Option<&'a [u8]>
    ensures { MatchOption result ((rest : List ℕ) → line.now ≢ first.now ++ rest) (λ rest. line.now ≡ first.now ++ rest.now) }
{
    line.strip_prefix(first)
}
