//! Pipes and timers: their declarations, and how instructions name them.

ghost use Rattle.std.specs.Prelude.{OnOk};
ghost use Rattle.ink_base.specs.Checks.{words_of};
ghost use Rattle.ink_base.specs.Gives.{Gives, Leaves};
ghost use Rattle.task_lines.specs.Place.{HasPlace};
ghost use Rattle.task_lines.specs.Devices.{reader_in, pipe_line, due_in, off_in, start_in, timer_line, owned_by, own_pipe_in, own_timer_in};

use crate::draft::Draft;
use crate::few::Few;
use crate::forms::room;
use crate::named::{declared, new_name};
use ink_base::checks::{end, field, first, fixed, number};
use ink_base::{Cause, LineError, ThreadId, Token, limits};
use std::alloc::Global;
use task_isa::{PipeDef, ThreadDef, TimerDef};

#[tactic(auto, unfolding(crate::specs::Devices::reader_in))]
fn reader<'a>(
    text: &'a [u8],
    words: &'a [Token],
    threads: &Few<ThreadDef>,
    writer: u8,
) -> Result<(u8, &'a [Token]), LineError>
    ensures { Gives (λ x. (x.0, words_of text.now x.1.now)) result (reader_in threads.now writer (words_of text.now words.now)) }
{
    let (thread, rest) = declared(text, words, threads.as_slice())?;
    let thread = thread as u8;
    if thread == writer {
        return Err(LineError::Fault(Cause::BadOwner));
    }
    Ok((thread, rest))
}

/// `pipe NAME C from THREAD to THREAD`. Refused by its first fault from the left; nothing is then said of the draft.
#[tactic(auto, unfolding(crate::specs::Devices::pipe_line))]
pub fn read_pipe(
    alloc: Global,
    draft: &mut Draft,
    text: &[u8],
    words: &[Token],
) -> Result<(), LineError>
    requires { HasPlace draft.old }
    ensures given { Leaves result draft.new (pipe_line draft.old (words_of text.now words.now)) }
    ensures place { OnOk result (HasPlace draft.new) }
{
    room(limits::PIPES, draft.pipes.len())?;
    let (name, rest) = new_name(alloc, text, words, draft.pipes.as_slice())?;
    let (places, rest) = number(text, rest, 1, u64::from(limits::PIPE_PLACES))?;
    let rest = fixed(text, rest, b"from")?;
    let (writer, rest) = declared(text, rest, draft.threads.as_slice())?;
    let writer = writer as u8;
    let rest = fixed(text, rest, b"to")?;
    let (reader, rest) = reader(text, rest, &draft.threads, writer)?;
    end(text, rest)?;
    draft.pipes.push(PipeDef {
        name,
        places: places as u8,
        writer: ThreadId(writer),
        reader: ThreadId(reader),
    })?;
    Ok(())
}

#[tactic(auto, unfolding(crate::specs::Devices::due_in))]
fn due(text: &[u8], words: &[Token]) -> Result<(Option<u32>, u32), LineError>
    ensures { Gives (λ x. x) result (due_in (words_of text.now words.now)) }
{
    let (due, rest) = field(text, words, b"due", 0, u64::from(limits::TICKS))?;
    let (period, rest) = field(text, rest, b"period", 0, u64::from(limits::TICKS))?;
    end(text, rest)?;
    Ok((Some(due as u32), period as u32))
}

#[tactic(auto, unfolding(crate::specs::Devices::off_in))]
fn off(text: &[u8], words: &[Token]) -> Result<(Option<u32>, u32), LineError>
    ensures { Gives (λ x. x) result (off_in (words_of text.now words.now)) }
{
    end(text, words)?;
    Ok((None, 0))
}

#[tactic(auto, unfolding(crate::specs::Devices::start_in))]
fn start(text: &[u8], words: &[Token]) -> Result<(Option<u32>, u32), LineError>
    ensures { Gives (λ x. x) result (start_in (words_of text.now words.now)) }
{
    let (word, rest) = first(text, words)?;
    if word == b"off".as_slice() {
        off(text, rest)
    } else {
        due(text, words)
    }
}

/// `timer NAME thread THREAD`, and then `off` or `due D period P`. Refused by its first fault from the left; nothing is then said of
/// the draft.
#[tactic(auto, unfolding(crate::specs::Devices::timer_line))]
pub fn read_timer(
    alloc: Global,
    draft: &mut Draft,
    text: &[u8],
    words: &[Token],
) -> Result<(), LineError>
    requires { HasPlace draft.old }
    ensures given { Leaves result draft.new (timer_line draft.old (words_of text.now words.now)) }
    ensures place { OnOk result (HasPlace draft.new) }
{
    room(limits::TIMERS, draft.timers.len())?;
    let (name, rest) = new_name(alloc, text, words, draft.timers.as_slice())?;
    let rest = fixed(text, rest, b"thread")?;
    let (thread, rest) = declared(text, rest, draft.threads.as_slice())?;
    let (due, period) = start(text, rest)?;
    draft.timers.push(TimerDef {
        name,
        thread: ThreadId(thread as u8),
        due,
        period,
    })?;
    Ok(())
}

fn demand_own(thread: ThreadId, owner: ThreadId) -> Result<(), LineError>
    ensures { Gives (λ x. x) result (owned_by thread owner) }
{
    if owner.0 == thread.0 {
        Ok(())
    } else {
        Err(LineError::Fault(Cause::BadOwner))
    }
}

/// The number of a pipe that the thread writes. Refused where it isn't there, `Missing`, not declared, `UnknownWord`, or another
/// thread's: `BadOwner`.
#[tactic(auto, unfolding(crate::specs::Devices::own_pipe_in))]
pub fn own_pipe<'a>(
    text: &'a [u8],
    words: &'a [Token],
    pipes: &Few<PipeDef>,
    thread: ThreadId,
) -> Result<(u32, &'a [Token]), LineError>
    ensures { Gives (λ x. (x.0, words_of text.now x.1.now)) result (own_pipe_in pipes.now thread (words_of text.now words.now)) }
{
    let (q, rest) = declared(text, words, pipes.as_slice())?;
    demand_own(thread, pipes.as_slice()[q].writer)?;
    Ok((q as u32, rest))
}

/// The number of a timer of the thread. Refused in the same way.
#[tactic(auto, unfolding(crate::specs::Devices::own_timer_in))]
pub fn own_timer<'a>(
    text: &'a [u8],
    words: &'a [Token],
    timers: &Few<TimerDef>,
    thread: ThreadId,
) -> Result<(u32, &'a [Token]), LineError>
    ensures { Gives (λ x. (x.0, words_of text.now x.1.now)) result (own_timer_in timers.now thread (words_of text.now words.now)) }
{
    let (j, rest) = declared(text, words, timers.as_slice())?;
    demand_own(thread, timers.as_slice()[j].thread)?;
    Ok((j as u32, rest))
}
