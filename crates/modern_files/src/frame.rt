// What becomes of a file, and the frame that says so.
ghost use Rattle.std.specs.Prelude.{◌≡◌, ◌++◌, flat_map, IfOk, OnOk};
ghost use Rattle.std.specs.Fmt.{decimal};
ghost use Rattle.outside_folder.specs.Calls.{IsWithin};
ghost use Rattle.modern_files.specs.Frames.{Becomes, IsFrame, IsOutcome, change_line, frame_text, line_of, rewritten_text, word_frame};

use older_headers::{Answer, modern_file};
use older_rules::Change;
use outside_folder::Content;
use plan_print::text_of_refusal;
use plan_types::{Cause, Fault, List, NoMemory, Refusal, Text};
use std::alloc::Global;

/// What becomes of the file at a path.
#[derive(Debug, Drop)]
pub(crate) enum Outcome {
    /// There is no file.
    Missing,
    Answered(Answer),
    Refused { line: u32, cause: Cause },
}

/// The frame of the content at a path.
pub(crate) fn frame_at(alloc: Global, path: &Text, content: &Content) -> Result<Text, NoMemory>
    requires { IsWithin content.now }
    ensures { IfOk result (IsFrame path.now content.now) }
{
    let outcome = outcome_of(alloc, content)?;
    frame_of(alloc, path, &outcome)
}

/// What becomes of the content of a file.
fn outcome_of(alloc: Global, content: &Content) -> Result<Outcome, NoMemory>
    requires { IsWithin content.now }
    ensures { IfOk result (IsOutcome content.now) }
{
    match content {
        Content::Missing => Ok(Outcome::Missing),
        Content::TooLarge => Ok(Outcome::Refused {
            line: 0,
            cause: Cause::TooLarge,
        }),
        Content::Bytes(bytes) => match modern_file(alloc, bytes.as_slice()) {
            Ok(answer) => Ok(Outcome::Answered(answer)),
            Err(Fault::At { line, cause }) => Ok(Outcome::Refused { line, cause }),
            Err(Fault::NoMemory) => Err(NoMemory),
        },
    }
}

/// The frame of an outcome.
fn frame_of(alloc: Global, path: &Text, outcome: &Outcome) -> Result<Text, NoMemory>
    ensures { IfOk result (λ frame. frame ≡ frame_text path.now outcome.now) }
{
    match outcome {
        Outcome::Missing => word_frame(alloc, "missing ", path),
        Outcome::Answered(Answer::Unchanged) => word_frame(alloc, "unchanged ", path),
        Outcome::Answered(Answer::Rewritten { text, changes }) => {
            rewritten_frame(alloc, path, text, changes)
        }
        Outcome::Refused { line, cause } => {
            let path = path.copy()?;
            text_of_refusal(alloc, &Refusal::at(alloc, path, *line, *cause))
        }
    }
}

fn word_frame(alloc: Global, word: &str, path: &Text) -> Result<Text, NoMemory>
    ensures { IfOk result (λ frame. frame ≡ word_frame word.now path.now) }
{
    let mut frame = Text::from_str(alloc, word)?;
    frame.push_str(path.as_str())?;
    frame.push_str("\n")?;
    Ok(frame)
}

fn rewritten_frame(
    alloc: Global,
    path: &Text,
    text: &Text,
    changes: &List<Change>,
) -> Result<Text, NoMemory>
    ensures { IfOk result (λ frame. frame ≡ rewritten_text path.now text.now changes.now) }
{
    let mut frame = word_frame(alloc, "rewritten ", path)?;
    push_changes(alloc, &mut frame, changes.as_slice())?;
    frame.push_str("bytes ")?;
    push_number(alloc, &mut frame, text.as_bytes().len() as u64)?;
    frame.push_str("\n")?;
    frame.push_str(text.as_str())?;
    frame.push_str("\n")?;
    Ok(frame)
}

fn push_changes(alloc: Global, frame: &mut Text, changes: &[Change]) -> Result<(), NoMemory>
    ensures { OnOk result (frame.new ≡ frame.old ++ flat_map change_line changes.now) }
{
    for change in changes {
        push_change(alloc, frame, *change)?;
    }
    Ok(())
}

fn push_change(alloc: Global, frame: &mut Text, change: Change) -> Result<(), NoMemory>
    ensures { OnOk result (frame.new ≡ frame.old ++ change_line change) }
{
    match change {
        Change::Header => frame.push_str("change header\n"),
        Change::BuildType => frame.push_str("change build-type\n"),
        Change::Setup => frame.push_str("change custom-setup\n"),
        Change::Sections => frame.push_str("change sections\n"),
        Change::Dropped { line } => push_line(alloc, frame, "change left-out ", line),
        Change::Tools { line } => push_line(alloc, frame, "change build-tools ", line),
        Change::UnknownTool { line } => push_line(alloc, frame, "change unknown-tool ", line),
        Change::Name { line } => push_line(alloc, frame, "change component-name ", line),
    }
}

fn push_line(alloc: Global, frame: &mut Text, words: &str, line: u32) -> Result<(), NoMemory>
    ensures { OnOk result (frame.new ≡ frame.old ++ line_of words.now line) }
{
    frame.push_str(words)?;
    push_number(alloc, frame, u64::from(line))?;
    frame.push_str("\n")
}

fn push_number(alloc: Global, frame: &mut Text, number: u64) -> Result<(), NoMemory>
    ensures { OnOk result (frame.new ≡ frame.old ++ decimal number) }
{
    let digits = format!(in alloc; "{number}")?;
    frame.push_str(digits.as_str())
}
