//! What stands behind the word of an entry: ticks, the name of a source, the name of a thread.

ghost use Rattle.std.specs.Prelude.{◌≡◌, ◌<◌, ◌^◌, ◌↔◌, IsTrue, length, decimal};
ghost use Rattle.prog_check.specs.Accepted.{IsAccepted};
ghost use Rattle.ink_base.specs.declared.ids.SourceId.{SourceId};
ghost use Rattle.ink_base.specs.declared.ids.ThreadId.{ThreadId};
ghost use Rattle.ink_audit.specs.kept.Told.{Names, source_word, thread_word};

use ink_base::{SourceId, ThreadId};
use itoa::Buffer;
use std::str;
use task_isa::Program;
use task_lines::place_of;

// The number of 64 bits that is written so. Each is written in one way, without leading zeros.
pub fn ticks(word: &[u8]) -> Option<u64>
    ensures { Names decimal (λ n. n < 2 ^ 64) word.now result }
{
    let ticks: u64 = str::from_utf8(word).ok()?.parse().ok()?;
    if is_written_so(ticks, word) {
        Some(ticks)
    } else {
        None
    }
}

fn is_written_so(number: u64, word: &[u8]) -> bool
    ensures { IsTrue result ↔ (word.now ≡ decimal number) }
{
    let mut buffer = Buffer::new();
    buffer.format(number).as_bytes() == word
}

// The source of the program that has this name.
pub fn source(program: &Program, word: &[u8]) -> Option<SourceId>
    requires { IsAccepted program.now }
    ensures { Names source_word (λ source. source.0 < length program.now.sources) word.now result }
{
    let number = ink_text::source(program.sources.len(), word)?;
    Some(SourceId(number as u8))
}

// The thread of the program that has this name.
pub fn thread(program: &Program, word: &[u8]) -> Option<ThreadId>
    requires { IsAccepted program.now }
    ensures { Names (thread_word program.now) (λ thread. thread.0 < length program.now.threads) word.now result }
{
    let place = place_of(program.threads.as_slice(), word)?;
    Some(ThreadId(place as u8))
}
