//! The journal of a claim, and its entries.

ghost use Rattle.std.specs.Prelude.{◌≡◌, ◌∷◌, ◌+◌, ◌-◌, ◌<◌, ◌^◌, length, position, IfOk, MatchResult};
ghost use Rattle.ink_base.specs.Lines.{lines};
ghost use Rattle.ink_audit.specs.Claim.{AreLinesOf};
ghost use Rattle.ink_audit.specs.kept.Feeds.{is_feed};
ghost use Rattle.ink_audit.specs.kept.Told.{IsFirstNoLine, IsJournalAt, LacksJournal, Objects};

use crate::entry::read_entry;
use crate::objection::Objection;
use ink_base::Entry;
use prog_check::Accepted;
use std::alloc::Global;

/// The journal of a claim.
#[derive(Clone, Copy)]
pub struct Journal<'a> {
    /// The number of its first line among those of the claim.
    pub first: u32,
    pub text: &'a [u8],
}

// The journal of a claim, which is what follows its first line `[journal]`. Where there is none, the line behind the last one is to blame.
pub fn journal_of(claim: &[u8]) -> Result<Journal<'_>, Objection>
    requires { length claim.now < 2 ^ 32 - 1 }
    ensures found { MatchResult result (λ journal. IsJournalAt claim.now journal.first journal.text.now) (Objects (LacksJournal claim.now)) }
    ensures room { IfOk result (λ journal. journal.first + length journal.text.now < 2 ^ 32) }
{
    let mut rest = claim;
    let mut line = 1;
    'lines: while !rest.is_empty() {
        let (words, after) = first_line(rest);
        line += 1;
        rest = after;
        if words == b"[journal]".as_slice() {
            return Ok(Journal {
                first: line,
                text: rest,
            });
        }
    }
    Err(Objection::Line(line))
}

// The entries of a journal. The first line that isn't that of an entry is to blame.
pub fn entries_of(
    alloc: Global,
    program: &Accepted,
    journal: Journal,
) -> Result<Vec<Entry>, Objection>
    requires { journal.first + length journal.text.now < 2 ^ 32 }
    ensures { MatchResult result (λ entries. AreLinesOf program.now entries.items (lines journal.entry.text.now)) (Objects (IsFirstNoLine program.now (lines journal.entry.text.now) journal.entry.first)) }
{
    let mut entries = Vec::new(alloc);
    let mut rest = journal.text;
    let mut line = journal.first;
    'lines: while !rest.is_empty() {
        let (words, after) = first_line(rest);
        match read_entry(program, words) {
            Some(entry) => entries.push(entry)?,
            None => return Err(Objection::Line(line)),
        }
        line += 1;
        rest = after;
    }
    Ok(entries)
}

// The first line of a text, without its line feed, and what follows it. The text isn't empty.
fn first_line(text: &[u8]) -> (&[u8], &[u8])
    requires { 0 < length text.now }
    ensures lines { lines text.now ≡ result.0.now ∷ lines result.1.now }
    ensures shorter { length result.1.now < length text.now }
{
    match feed_at(text) {
        Some(end) => (&text[..end], &text[end + 1..]),
        None => (text, &[]),
    }
}

// The place of the first line feed.
fn feed_at(text: &[u8]) -> Option<usize>
    ensures { result ≡ position is_feed text.now }
{
    text.iter().position(|b| *b == b'\n')
}
