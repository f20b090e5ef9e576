//! The forms of the lines of a script.

ghost use Rattle.std.specs.Prelude.{◌≡◌, ◌≤◌, IfOk};
ghost use Rattle.ink_base.specs.Checks.{words_of};
ghost use Rattle.ink_base.specs.Gives.{Gives};
ghost use Rattle.ink_radio.specs.Script.{alone, form_of, last_number, event_in};

use crate::event::RadioEvent;
use crate::limits::SCRIPT_NUMBER;
use ink_base::checks::{end, number};
use ink_base::{LineError, Token};

/// What stands in a line behind its first word.
#[derive(Clone, Copy)]
pub enum Form {
    /// Nothing: the word says the event.
    Alone(RadioEvent),
    /// How many outputs grow.
    Grow,
    /// The number of a packet that comes to the base.
    ToBase,
    /// The number of a packet that comes to the node.
    ToNode,
}

#[tactic(auto, unfolding(crate::specs::Script::alone))]
fn alone(word: &[u8]) -> Option<RadioEvent>
    ensures { result ≡ alone word.now }
{
    if word == b"send".as_slice() {
        Some(RadioEvent::Send)
    } else if word == b"rewind".as_slice() {
        Some(RadioEvent::Rewind)
    } else if word == b"nodecut".as_slice() {
        Some(RadioEvent::NodeCut)
    } else if word == b"save".as_slice() {
        Some(RadioEvent::Save)
    } else if word == b"basecut".as_slice() {
        Some(RadioEvent::BaseCut)
    } else {
        None
    }
}

/// The form of a line by its first word; none where no line begins so.
#[tactic(auto, unfolding(crate::specs::Script::form_of))]
pub fn form_of(word: &[u8]) -> Option<Form>
    ensures { result ≡ form_of word.now }
{
    if word == b"grow".as_slice() {
        Some(Form::Grow)
    } else if word == b"tobase".as_slice() {
        Some(Form::ToBase)
    } else if word == b"tonode".as_slice() {
        Some(Form::ToNode)
    } else {
        alone(word).map(Form::Alone)
    }
}

// A number, and the end of the line.
#[tactic(auto, unfolding(crate::specs::Script::last_number))]
fn last_number(text: &[u8], words: &[Token]) -> Result<u32, LineError>
    ensures { Gives (λ n. n) result (last_number (words_of text.now words.now)) }
{
    let (number, rest) = number(text, words, 0, u64::from(SCRIPT_NUMBER))?;
    end(text, rest)?;
    Ok(number as u32)
}

/// The event of a line, by its form and the words behind its first. Refused where a number isn't there, `Missing`, is none, `BadNumber`, or is
/// above 4,194,304, `OverLimit`, and where a word is left over: `UnknownWord`.
#[tactic(auto, unfolding(crate::specs::Script::event_in))]
pub fn read_event(form: Form, text: &[u8], words: &[Token]) -> Result<RadioEvent, LineError>
    ensures { Gives (λ event. event) result (event_in form (words_of text.now words.now)) }
{
    match form {
        Form::Alone(event) => {
            end(text, words)?;
            Ok(event)
        }
        Form::Grow => Ok(RadioEvent::Grow(last_number(text, words)?)),
        Form::ToBase => Ok(RadioEvent::ToBase(last_number(text, words)?)),
        Form::ToNode => Ok(RadioEvent::ToNode(last_number(text, words)?)),
    }
}
