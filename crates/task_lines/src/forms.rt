//! The declarations of threads and sources. Each function reads what stands behind the first word of a line.

ghost use Rattle.std.specs.Prelude.{◌≡◌, OnOk};
ghost use Rattle.ink_base.specs.Checks.{words_of};
ghost use Rattle.ink_base.specs.Gives.{Gives, Leaves};
ghost use Rattle.task_lines.specs.Place.{HasPlace};
ghost use Rattle.task_lines.specs.Forms.{room, has_priority, priority_in, expires_in, thread_line, source_line};

use crate::draft::Draft;
use crate::named::{declared, new_name};
use ink_base::checks::{end, field};
use ink_base::{Cause, LineError, ThreadId, Token, limits};
use std::alloc::Global;
use task_isa::ThreadDef;

/// Room for one more where there are `count`. Refused where there are `most`: `OverLimit`.
pub fn room(most: usize, count: usize) -> Result<(), LineError>
    ensures { Gives (λ x. x) result (room most count) }
{
    if count < most {
        Ok(())
    } else {
        Err(LineError::Fault(Cause::OverLimit))
    }
}

fn has_priority(threads: &[ThreadDef], n: u8) -> bool
    ensures { result ≡ has_priority threads.now n }
{
    threads.iter().any(|t| t.priority == n)
}

#[tactic(auto, unfolding(crate::specs::Forms::priority_in))]
fn priority<'a>(
    text: &'a [u8],
    words: &'a [Token],
    threads: &[ThreadDef],
) -> Result<(u8, &'a [Token]), LineError>
    ensures { Gives (λ x. (x.0, words_of text.now x.1.now)) result (priority_in threads.now (words_of text.now words.now)) }
{
    let (n, rest) = field(text, words, b"priority", 0, u64::from(limits::PRIORITY))?;
    let n = n as u8;
    if has_priority(threads, n) {
        return Err(LineError::Fault(Cause::Duplicate));
    }
    Ok((n, rest))
}

#[tactic(auto, unfolding(crate::specs::Forms::expires_in))]
fn expires(text: &[u8], words: &[Token]) -> Result<Option<u32>, LineError>
    ensures { Gives (λ x. x) result (expires_in (words_of text.now words.now)) }
{
    match words {
        [] => Ok(None),
        [_, ..] => {
            let (ticks, rest) = field(text, words, b"expires", 0, u64::from(limits::TICKS))?;
            end(text, rest)?;
            Ok(Some(ticks as u32))
        }
    }
}

/// `thread NAME priority P queue N state S log L`, and perhaps `expires D`. Refused by its first fault from the left; nothing is then
/// said of the draft.
#[tactic(auto, unfolding(crate::specs::Forms::thread_line))]
pub fn read_thread(
    alloc: Global,
    draft: &mut Draft,
    text: &[u8],
    line: u32,
    words: &[Token],
) -> Result<(), LineError>
    requires { HasPlace draft.old }
    ensures given { Leaves result draft.new (thread_line draft.old line (words_of text.now words.now)) }
    ensures place { OnOk result (HasPlace draft.new) }
{
    room(limits::THREADS, draft.threads.len())?;
    let (name, rest) = new_name(alloc, text, words, draft.threads.as_slice())?;
    let (priority, rest) = priority(text, rest, draft.threads.as_slice())?;
    let fewest = u64::from(limits::FEWEST_QUEUE_PLACES);
    let (queue, rest) = field(
        text,
        rest,
        b"queue",
        fewest,
        u64::from(limits::QUEUE_PLACES),
    )?;
    let (state, rest) = field(text, rest, b"state", 0, u64::from(limits::STATE_NUMBERS))?;
    let (log, rest) = field(text, rest, b"log", 1, u64::from(limits::LOG_PLACES))?;
    let expires = expires(text, rest)?;
    draft.threads.push(ThreadDef {
        name,
        priority,
        queue: queue as u8,
        state: state as u16,
        log: log as u16,
        expires,
    })?;
    draft.thread_lines.push(line)?;
    Ok(())
}

/// `source THREAD`. Refused in the same way.
#[tactic(auto, unfolding(crate::specs::Forms::source_line))]
pub fn read_source(draft: &mut Draft, text: &[u8], words: &[Token]) -> Result<(), LineError>
    requires { HasPlace draft.old }
    ensures given { Leaves result draft.new (source_line draft.old (words_of text.now words.now)) }
    ensures place { OnOk result (HasPlace draft.new) }
{
    room(limits::SOURCES, draft.sources.len())?;
    let (thread, rest) = declared(text, words, draft.threads.as_slice())?;
    end(text, rest)?;
    draft.sources.push(ThreadId(thread as u8))?;
    Ok(())
}
