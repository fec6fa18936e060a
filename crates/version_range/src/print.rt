// Printing ranges.
ghost use Rattle.std.specs.Prelude.{◌≡◌, ◌++◌, [], IfOk, OnOk, codes};
ghost use Rattle.std.specs.List.{All};
ghost use Rattle.plan_types.specs.declared.range.Range.{Range};
ghost use Rattle.version_range.specs.Version.{version_text};
ghost use Rattle.version_range.specs.Print.{text_in, range_text, as_term, as_whole, enclosed, rests_text, IsSmaller, StaySmaller, Opens};

use crate::version::push_version;
use plan_types::{NoMemory, Range, Text, Version};
use std::alloc::Global;

/// The place of a range's text inside another.
#[derive(Clone, Copy)]
pub enum RangePlace {
    Whole,
    /// An operand of `||`.
    Term,
    /// An operand of `&&`.
    Factor,
}

/// A pending text after a left operand.
#[derive(Clone, Copy)]
pub enum Rest<'a> {
    Close,
    And(&'a Range),
    Or(&'a Range),
}

/// The text of a range, with parentheses only where they are needed.
pub fn print_range(alloc: Global, r: &Range) -> Result<Text, NoMemory>
    ensures { IfOk result (λ text. text ≡ range_text r.now) }
{
    let mut text = Text::new(alloc);
    push_range(alloc, &mut text, r, RangePlace::Whole)?;
    Ok(text)
}

fn push_range(
    alloc: Global,
    text: &mut Text,
    range: &Range,
    place: RangePlace,
) -> Result<(), NoMemory>
    ensures { OnOk result (text.new ≡ text.old ++ text_in range.now place) }
{
    let mut rests = Vec::new(alloc);
    push_left(alloc, text, &mut rests, range, place)?;
    while let Some(rest) = rests.pop() {
        match rest {
            Rest::Close => text.push_str(")")?,
            Rest::And(right) => {
                text.push_str(" && ")?;
                push_range(alloc, text, right, RangePlace::Factor)?;
            }
            Rest::Or(right) => {
                text.push_str(" || ")?;
                push_range(alloc, text, right, RangePlace::Term)?;
            }
        }
    }
    Ok(())
}

// Writes the leftmost factor with its opening parentheses, and pushes what follows. A loop, as left operands may nest
// as deep as a file is long.
fn push_left<'a>(
    alloc: Global,
    text: &mut Text,
    rests: &mut Vec<Rest<'a>>,
    range: &'a Range,
    place: RangePlace,
) -> Result<(), NoMemory>
    requires { rests.old.items ≡ [] }
    ensures text { OnOk result (text.new ++ rests_text rests.new.items ≡ text.old ++ text_in range.now place) }
    ensures smaller { OnOk result (All (IsSmaller range.now) rests.new.items) }
{
    let mut left = range;
    let mut at = place;
    loop {
        match left {
            Range::Any => return text.push_str("-any"),
            Range::Nothing => return text.push_str("-none"),
            Range::Equal(x) => return push_compared(alloc, text, "==", x),
            Range::Prefix(x) => return push_prefix(alloc, text, x),
            Range::AtLeast(x) => return push_compared(alloc, text, ">=", x),
            Range::Above(x) => return push_compared(alloc, text, ">", x),
            Range::AtMost(x) => return push_compared(alloc, text, "<=", x),
            Range::Below(x) => return push_compared(alloc, text, "<", x),
            Range::Major(x) => return push_compared(alloc, text, "^>=", x),
            Range::Both(l, r) => {
                open_term(text, rests, at)?;
                rests.push(Rest::And(r.get()))?;
                left = l.get();
                at = RangePlace::Term;
            }
            Range::Either(l, r) => {
                open_whole(text, rests, at)?;
                rests.push(Rest::Or(r.get()))?;
                left = l.get();
                at = RangePlace::Whole;
            }
        }
    }
}

fn open_term(text: &mut Text, rests: &mut Vec<Rest>, place: RangePlace) -> Result<(), NoMemory>
    ensures text { OnOk result (Opens (as_term place) text.old rests.old.items text.new rests.new.items) }
    ensures smaller { OnOk result (StaySmaller rests.old.items rests.new.items) }
{
    match place {
        RangePlace::Whole => Ok(()),
        RangePlace::Term => Ok(()),
        RangePlace::Factor => open(text, rests),
    }
}

fn open_whole(text: &mut Text, rests: &mut Vec<Rest>, place: RangePlace) -> Result<(), NoMemory>
    ensures text { OnOk result (Opens (as_whole place) text.old rests.old.items text.new rests.new.items) }
    ensures smaller { OnOk result (StaySmaller rests.old.items rests.new.items) }
{
    match place {
        RangePlace::Whole => Ok(()),
        RangePlace::Term => open(text, rests),
        RangePlace::Factor => open(text, rests),
    }
}

fn open(text: &mut Text, rests: &mut Vec<Rest>) -> Result<(), NoMemory>
    ensures text { OnOk result (Opens enclosed text.old rests.old.items text.new rests.new.items) }
    ensures smaller { OnOk result (StaySmaller rests.old.items rests.new.items) }
{
    text.push_str("(")?;
    rests.push(Rest::Close)?;
    Ok(())
}

fn push_compared(
    alloc: Global,
    text: &mut Text,
    operator: &str,
    x: &Version,
) -> Result<(), NoMemory>
    ensures { OnOk result (text.new ≡ text.old ++ operator.now ++ version_text x.now.parts) }
{
    text.push_str(operator)?;
    push_version(alloc, text, x)
}

fn push_prefix(alloc: Global, text: &mut Text, x: &Version) -> Result<(), NoMemory>
    ensures { OnOk result (text.new ≡ text.old ++ codes "==" ++ version_text x.now.parts ++ codes ".*") }
{
    push_compared(alloc, text, "==", x)?;
    text.push_str(".*")
}
