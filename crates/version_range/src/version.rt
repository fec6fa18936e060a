// Reading and printing versions.
ghost use Rattle.std.specs.Prelude.{◌≡◌, ◌≢◌, ℕ, ◌++◌, List, IsTrue, IfOk, IfErr, OnOk};
ghost use Rattle.std.specs.Fmt.{decimal};
ghost use Rattle.plan_types.specs.declared.refusal.Cause.TheVariants.{BadVersion};
ghost use Rattle.version_range.specs.Version.{IsVersionOf, is_version, version_text, led_by_points};
ghost use Rattle.plan_types.specs.Refusal.{Refuses};

use crate::number::number_at;
use plan_types::{Cause, List, NoMemory, Text, TextFault, Version};
use std::alloc::Global;
use text_grammar::byte_after;

/// Reads a version: numbers joined by points, each of one to nine digits and with no leading zero
/// unless it is `0`. The whole text is the version.
pub fn read_version(alloc: Global, text: &[u8]) -> Result<Version, TextFault>
    ensures found { IfOk result (λ v. IsTrue (is_version v.parts) × (text.now ≡ version_text v.parts)) }
    ensures only { IfOk result (λ v. (ps : List ℕ) → IsTrue (is_version ps) → text.now ≡ version_text ps
        → v.parts ≡ ps) }
    ensures refused { IfErr result (Refuses (λ cause. (cause ≡ BadVersion)
        × ((ps : List ℕ) → IsTrue (is_version ps) → text.now ≢ version_text ps))) }
{
    let mut parts = List::new(alloc);
    let mut rest = text;
    while let Some((number, after)) = number_at(rest) {
        parts.push(number)?;
        if after.is_empty() {
            return Ok(Version { parts });
        }
        let Some(more) = byte_after(after, b'.') else {
            return Err(TextFault::Bad(Cause::BadVersion));
        };
        rest = more;
    }
    Err(TextFault::Bad(Cause::BadVersion))
}

/// The version of a text, if it is one.
pub fn version_of(alloc: Global, text: &[u8]) -> Result<Option<Version>, NoMemory>
    ensures { IfOk result (IsVersionOf text.now) }
{
    match read_version(alloc, text) {
        Ok(version) => Ok(Some(version)),
        Err(TextFault::Bad(_)) => Ok(None),
        Err(TextFault::NoMemory) => Err(NoMemory),
    }
}

/// The text of a version: its numbers in decimal, joined by points.
pub fn print_version(alloc: Global, v: &Version) -> Result<Text, NoMemory>
    ensures { IfOk result (λ text. text ≡ version_text v.now.parts) }
{
    let mut text = Text::new(alloc);
    push_version(alloc, &mut text, v)?;
    Ok(text)
}

pub fn push_version(alloc: Global, text: &mut Text, v: &Version) -> Result<(), NoMemory>
    ensures { OnOk result (text.new ≡ text.old ++ version_text v.now.parts) }
{
    match v.parts.as_slice().split_first() {
        None => Ok(()),
        Some((first, more)) => {
            push_number(alloc, text, *first)?;
            push_more(alloc, text, more)
        }
    }
}

fn push_more(alloc: Global, text: &mut Text, more: &[u32]) -> Result<(), NoMemory>
    ensures { OnOk result (text.new ≡ text.old ++ led_by_points more.now) }
{
    for part in more {
        text.push_str(".")?;
        push_number(alloc, text, *part)?;
    }
    Ok(())
}

fn push_number(alloc: Global, text: &mut Text, number: u32) -> Result<(), NoMemory>
    ensures { OnOk result (text.new ≡ text.old ++ decimal number) }
{
    let digits = format!(in alloc; "{number}")?;
    text.push_str(digits.as_str())
}
