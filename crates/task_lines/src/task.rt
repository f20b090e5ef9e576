//! The lines of the section: which stand inside of a task, and what each adds to the draft.

ghost use Rattle.std.specs.Prelude.{◌≡◌, ◌<◌, length, IsNone, OnOk};
ghost use Rattle.std.specs.Option.{option_map};
ghost use Rattle.ink_base.specs.Checks.{words_of};
ghost use Rattle.ink_base.specs.Gives.{Leaves};
ghost use Rattle.task_lines.specs.Place.{HasPlace};
ghost use Rattle.task_lines.specs.Task.{label_of, label_line, instr_line, end_line, inside_line, line_in};

use crate::draft::{Draft, DraftLine, DraftTask};
use crate::forms::room;
use crate::named::fresh;
use crate::op::op_of;
use crate::operands::read_operands;
use crate::outside::read_outside;
use ink_base::checks::{end, word};
use ink_base::limits::{INSTRUCTIONS, TASKS};
use ink_base::{LineError, Token};
use ink_text::Section;
use std::alloc::Global;

fn label_of(word: &[u8]) -> Option<&[u8]>
    ensures { option_map (λ x. x.now) result ≡ label_of word.now }
{
    if !word.is_empty() && word[word.len() - 1] == b':' {
        Some(&word[..word.len() - 1])
    } else {
        None
    }
}

#[tactic(auto, unfolding(crate::specs::Task::label_line))]
fn read_label(
    alloc: Global,
    draft: &mut Draft,
    mut task: DraftTask,
    text: &[u8],
    name: &[u8],
    words: &[Token],
) -> Result<(), LineError>
    requires { length draft.old.tasks < TASKS }
    ensures given { Leaves result draft.new (label_line draft.old task name.now (words_of text.now words.now)) }
    ensures place { OnOk result (HasPlace draft.new) }
{
    fresh(name, task.labels.get(name).is_some())?;
    end(text, words)?;
    let offset = draft.count.saturating_sub(task.before);
    task.labels.insert(alloc, name, offset)?;
    draft.current = Some(task);
    Ok(())
}

#[tactic(auto, unfolding(crate::specs::Task::instr_line))]
fn read_instr(
    alloc: Global,
    draft: &mut Draft,
    mut task: DraftTask,
    text: &[u8],
    line: u32,
    word: &[u8],
    words: &[Token],
) -> Result<(), LineError>
    requires { length draft.old.tasks < TASKS }
    ensures given { Leaves result draft.new (instr_line draft.old task line word.now (words_of text.now words.now)) }
    ensures place { OnOk result (HasPlace draft.new) }
{
    let op = op_of(word)?;
    room(INSTRUCTIONS, draft.count as usize)?;
    let instr = read_operands(alloc, draft, task.thread, op, text, words)?;
    task.code.push(DraftLine { line, instr })?;
    draft.current = Some(task);
    draft.count += 1;
    Ok(())
}

#[tactic(auto, unfolding(crate::specs::Task::end_line))]
fn read_end(
    draft: &mut Draft,
    task: DraftTask,
    text: &[u8],
    words: &[Token],
) -> Result<(), LineError>
    requires closed { IsNone draft.old.current }
    requires place { length draft.old.tasks < TASKS }
    ensures given { Leaves result draft.new (end_line draft.old task (words_of text.now words.now)) }
    ensures place { OnOk result (HasPlace draft.new) }
{
    end(text, words)?;
    draft.tasks.push(task)?;
    Ok(())
}

#[tactic(auto, unfolding(crate::specs::Task::inside_line))]
fn read_inside(
    alloc: Global,
    draft: &mut Draft,
    task: DraftTask,
    text: &[u8],
    line: u32,
    word: &[u8],
    words: &[Token],
) -> Result<(), LineError>
    requires closed { IsNone draft.old.current }
    requires place { length draft.old.tasks < TASKS }
    ensures given { Leaves result draft.new (inside_line draft.old task line word.now (words_of text.now words.now)) }
    ensures place { OnOk result (HasPlace draft.new) }
{
    if word == b"end".as_slice() {
        return read_end(draft, task, text, words);
    }
    match label_of(word) {
        Some(name) => read_label(alloc, draft, task, text, name, words),
        None => read_instr(alloc, draft, task, text, line, word, words),
    }
}

impl Section for Draft {
    ghost line = { line_in };

    ghost keeps = { HasPlace };

    #[tactic(auto, unfolding(crate::specs::Task::line_in))]
    fn read_line(
        &mut self,
        alloc: Global,
        text: &[u8],
        number: u32,
        words: &[Token],
    ) -> Result<(), LineError> {
        match words {
            [] => Ok(()),
            [first, rest @ ..] => {
                let first = word(text, first);
                match self.current.take() {
                    None => read_outside(alloc, self, text, number, first, rest),
                    Some(task) => read_inside(alloc, self, task, text, number, first, rest),
                }
            }
        }
    }
}
