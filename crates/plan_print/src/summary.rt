// The summary of a plan of a generated folder.
ghost use Rattle.std.specs.Prelude.{◌≡◌, IfOk};
ghost use Rattle.plan_print.specs.Summary.{summary_text};

use crate::texts::push_counts;
use choice_problem::Counts;
use plan_types::{NoMemory, Text};
use std::alloc::Global;

/// The folder's number, the numbers of choices and nodes, the counts of the search, and the digest of the plan's text.
pub fn text_of_summary(
    alloc: Global,
    number: u32,
    choices: usize,
    nodes: usize,
    counts: Counts,
    digest: &str,
) -> Result<Text, NoMemory>
    ensures { IfOk result (λ text. text ≡ summary_text number choices nodes counts digest.now) }
{
    let head = format!(in alloc; "generated {number}\nchosen {choices}\nnodes {nodes}\n")?;
    let mut text = Text::from_string(head);
    push_counts(alloc, &mut text, counts)?;
    text.push_str("plan ")?;
    text.push_str(digest)?;
    text.push_str("\n")?;
    Ok(text)
}
