//! The lines outside of tasks. Each function reads what stands behind the first word of a line.

ghost use Rattle.std.specs.Prelude.{OnOk};
ghost use Rattle.ink_base.specs.Checks.{words_of};
ghost use Rattle.ink_base.specs.Gives.{Leaves};
ghost use Rattle.task_lines.specs.Place.{HasPlace};
ghost use Rattle.task_lines.specs.Outside.{task_line, outside_line};

use crate::devices::{read_pipe, read_timer};
use crate::draft::{Draft, DraftTask};
use crate::forms::{read_source, read_thread, room};
use crate::labels::Labels;
use crate::named::{declared, new_name};
use ink_base::checks::{end, field, fixed};
use ink_base::{Cause, LineError, ThreadId, Token, limits};
use sqlite_items::Items;
use std::alloc::Global;

#[tactic(auto, unfolding(crate::specs::Outside::task_line))]
fn read_task(
    alloc: Global,
    draft: &mut Draft,
    text: &[u8],
    line: u32,
    words: &[Token],
) -> Result<(), LineError>
    requires { HasPlace draft.old }
    ensures given { Leaves result draft.new (task_line draft.old line (words_of text.now words.now)) }
    ensures place { OnOk result (HasPlace draft.new) }
{
    room(limits::TASKS, draft.tasks.len())?;
    let (name, rest) = new_name(alloc, text, words, draft.tasks.as_slice())?;
    let rest = fixed(text, rest, b"thread")?;
    let (thread, rest) = declared(text, rest, draft.threads.as_slice())?;
    let (limit, rest) = field(text, rest, b"limit", 1, u64::from(limits::TASK_LIMIT))?;
    end(text, rest)?;
    draft.current = Some(DraftTask {
        line,
        name,
        thread: ThreadId(thread as u8),
        limit: limit as u16,
        before: draft.count,
        code: Items::new(alloc),
        labels: Labels::new(alloc),
    });
    Ok(())
}

/// A line outside of tasks, behind its first word `word`. Refused where that begins no declaration, `UnknownWord`, and else by the first
/// fault from the left. Where it is refused nothing is said of the draft.
#[tactic(auto, unfolding(crate::specs::Outside::outside_line))]
pub fn read_outside(
    alloc: Global,
    draft: &mut Draft,
    text: &[u8],
    line: u32,
    word: &[u8],
    words: &[Token],
) -> Result<(), LineError>
    requires { HasPlace draft.old }
    ensures given { Leaves result draft.new (outside_line draft.old line word.now (words_of text.now words.now)) }
    ensures place { OnOk result (HasPlace draft.new) }
{
    if word == b"thread".as_slice() {
        read_thread(alloc, draft, text, line, words)
    } else if word == b"source".as_slice() {
        read_source(draft, text, words)
    } else if word == b"pipe".as_slice() {
        read_pipe(alloc, draft, text, words)
    } else if word == b"timer".as_slice() {
        read_timer(alloc, draft, text, words)
    } else if word == b"task".as_slice() {
        read_task(alloc, draft, text, line, words)
    } else {
        Err(LineError::Fault(Cause::UnknownWord))
    }
}
