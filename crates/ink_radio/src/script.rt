//! The section of a radio's script.

use crate::event::RadioEvent;
use crate::forms::{form_of, read_event};
use crate::limits::SCRIPT_LINES;
use ink_base::checks::first;
use ink_base::limits::TEXT_BYTES;
use ink_base::lines::split_line;
use ink_base::{Cause, JobAnswer, JobFault, LineError, Token, Tokens};
use ink_text::{Section, read_section, tokens_from};
use sqlite_items::Items;
use std::alloc::Global;
use std::marker::Model;

/// The events so far. Contracts see them as a list.
#[derive(Drop)]
pub struct Script {
    events: Items<RadioEvent>,
}

impl Model for Script {
    ghost use Rattle.std.specs.Prelude.{List};
    ghost use Rattle.ink_radio.specs.declared.event.RadioEvent.{RadioEvent as AnEvent};

    ghost Value = { List AnEvent };

    ghost view = { λ s. s.events };
}

ghost use Rattle.std.specs.Prelude.{◌≡◌, ◌<◌, ◌≤◌, ◌^◌, ℕ, List, length, drop, IfOk};
ghost use Rattle.ink_base.specs.Lines.{lines};
ghost use Rattle.ink_base.specs.Gives.{Gives, GivesJob};
ghost use Rattle.ink_base.specs.TokenLines.{token_lines};
ghost use Rattle.ink_base.specs.Tokens.{AreTokens};
ghost use Rattle.ink_radio.specs.Script.{room_in, script_end, script_in};

fn room(events: &Items<RadioEvent>) -> Result<(), LineError>
    ensures { Gives (λ x. x) result (room_in events.now) }
{
    if events.len() < SCRIPT_LINES {
        Ok(())
    } else {
        Err(LineError::Fault(Cause::OverLimit))
    }
}

impl Section for Script {
    ghost use Rattle.std.specs.Prelude.{◌≤◌, length};
    ghost use Rattle.ink_radio.specs.declared.limits.TheConstants.{SCRIPT_LINES};
    ghost use Rattle.ink_radio.specs.Script.{script_line};

    ghost line = { script_line };

    ghost keeps = { λ events. length events ≤ SCRIPT_LINES };

    #[tactic(auto, unfolding(crate::specs::Script::script_line))]
    fn read_line(
        &mut self,
        _alloc: Global,
        text: &[u8],
        _line: u32,
        words: &[Token],
    ) -> Result<(), LineError> {
        let (word, rest) = first(text, words)?;
        match form_of(word) {
            Some(form) => {
                room(&self.events)?;
                let event = read_event(form, text, rest)?;
                self.events.push(event)?;
                Ok(())
            }
            None => Err(LineError::Fault(Cause::UnknownWord)),
        }
    }
}

// The end of the script: no line of it begins with a bracket.
#[tactic(auto, unfolding(crate::specs::Script::script_end))]
fn script_end(tokens: &[Token]) -> Result<(), JobAnswer>
    ensures { (text : List ℕ) → GivesJob (λ x. x) result (script_end (token_lines text tokens.now)) }
{
    if tokens.is_empty() {
        return Ok(());
    }
    let (line, _words, _rest) = split_line(tokens);
    Err(JobAnswer::Fault(JobFault {
        line,
        cause: Cause::UnknownWord,
    }))
}

// The events, by the tokens from the section's header on.
#[tactic(auto, unfolding(crate::specs::Script::script_in))]
fn events(
    alloc: Global,
    text: &[u8],
    lines: u32,
    tokens: &[Token],
) -> Result<Items<RadioEvent>, JobAnswer>
    requires { lines < 2 ^ 31 }
    ensures given { GivesJob (λ events. events) result (script_in lines (token_lines text.now tokens.now)) }
    ensures within { IfOk result (λ events. length events ≤ SCRIPT_LINES) }
{
    let mut script = Script {
        events: Items::new(alloc),
    };
    let rest = read_section(&mut script, alloc, text, lines, tokens)?;
    script_end(rest)?;
    Ok(script.events)
}

/// Reads the section `[radio]` of a text of at most 4,194,304 bytes, by its tokens, from the index of the section's header on: the events of the
/// script. Refused with its line: no such header, `Missing` at the number of lines plus 1; a word behind the header, `UnknownWord`; a line that
/// begins with no word of an event, also with a bracket, `UnknownWord`; the 65,537th line, `OverLimit`; a number that isn't there, `Missing`, is
/// none, `BadNumber`, or is above 4,194,304, `OverLimit`; a further word, `UnknownWord`.
pub fn read_script(
    alloc: Global,
    text: &[u8],
    tokens: &Tokens,
    at: u32,
) -> Result<Items<RadioEvent>, JobAnswer>
    requires short { length text.now ≤ TEXT_BYTES }
    requires tokens { AreTokens text.now tokens.now.list.items tokens.now.lines }
    requires at { at ≤ length tokens.now.list.items }
    ensures given { GivesJob (λ events. events) result (script_in (length (lines text.now)) (token_lines text.now (drop at tokens.now.list.items))) }
    ensures within { IfOk result (λ events. length events ≤ SCRIPT_LINES) }
{
    events(alloc, text, tokens.lines, tokens_from(tokens, at))
}
