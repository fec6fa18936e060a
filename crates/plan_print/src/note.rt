// The notes on an index, in lines.
ghost use Rattle.std.specs.Prelude.{◌≡◌, ◌++◌, IfOk, OnOk, flat_map};
ghost use Rattle.plan_print.specs.Note.{note_line, note_text, notes_text, skipped_line, skipped_note, warning_line, warning_note};

use crate::cause::cause_name;
use crate::place::push_where;
use plan_types::{Index, NoMemory, Skipped, Text, Warning};
use std::alloc::Global;

// Appends the notes on an index: the skipped files, then the warnings.
pub fn push_notes(alloc: Global, text: &mut Text, index: &Index) -> Result<(), NoMemory>
    ensures { OnOk result (text.new ≡ text.old ++ notes_text index.now) }
{
    push_skipped_lines(alloc, text, index.skipped.as_slice())?;
    push_warning_lines(alloc, text, index.warnings.as_slice())
}

/// The note on a skipped file.
pub fn skipped_note(alloc: Global, file: &Skipped) -> Result<Text, NoMemory>
    ensures { IfOk result (λ note. note ≡ skipped_note file.now) }
{
    let cause = cause_name(file.cause);
    let mut note = Text::new(alloc);
    push_note(alloc, &mut note, &file.path, file.line, cause)?;
    Ok(note)
}

/// The note on something that was accepted unread.
pub fn warning_note(alloc: Global, warning: &Warning) -> Result<Text, NoMemory>
    ensures { IfOk result (λ note. note ≡ warning_note warning.now) }
{
    let word = warning.word.as_str();
    let mut note = Text::new(alloc);
    push_note(alloc, &mut note, &warning.path, warning.line, word)?;
    Ok(note)
}

fn push_skipped_lines(alloc: Global, text: &mut Text, skipped: &[Skipped]) -> Result<(), NoMemory>
    ensures { OnOk result (text.new ≡ text.old ++ flat_map skipped_line skipped.now) }
{
    for file in skipped {
        let cause = cause_name(file.cause);
        push_note_line(alloc, text, "skipped ", &file.path, file.line, cause)?;
    }
    Ok(())
}

fn push_warning_lines(alloc: Global, text: &mut Text, warnings: &[Warning]) -> Result<(), NoMemory>
    ensures { OnOk result (text.new ≡ text.old ++ flat_map warning_line warnings.now) }
{
    for warning in warnings {
        let word = warning.word.as_str();
        push_note_line(alloc, text, "warning ", &warning.path, warning.line, word)?;
    }
    Ok(())
}

fn push_note_line(
    alloc: Global,
    text: &mut Text,
    kind: &str,
    path: &Text,
    line: u32,
    word: &str,
) -> Result<(), NoMemory>
    ensures { OnOk result (text.new ≡ text.old ++ note_line kind.now path.now line word.now) }
{
    text.push_str(kind)?;
    push_note(alloc, text, path, line, word)?;
    text.push_str("\n")
}

fn push_note(
    alloc: Global,
    text: &mut Text,
    path: &Text,
    line: u32,
    word: &str,
) -> Result<(), NoMemory>
    ensures { OnOk result (text.new ≡ text.old ++ note_text path.now line word.now) }
{
    push_where(alloc, text, path.as_str(), line)?;
    text.push_str(" ")?;
    text.push_str(word)
}
