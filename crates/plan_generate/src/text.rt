// The texts of the generated files.
ghost use Rattle.std.specs.Prelude.{◌≡◌, ◌++◌, IfOk, OnOk, flat_map};
ghost use Rattle.plan_generate.specs.Text.{depends_line, flag_of, name, name_behind, plain_text, version_path, version_text};

use plan_types::{NoMemory, Text};
use std::alloc::Global;

const FLAG: &str = "  if flag(f)\n    build-depends: missing\nflag f\n  default: True\n";

/// The path of a version's file.
pub fn version_path(alloc: Global, number: u64, version: u64) -> Result<Text, NoMemory>
    ensures { IfOk result (λ path. path ≡ version_path number version) }
{
    let mut path = Text::from_str(alloc, "index/")?;
    push_name(alloc, &mut path, number)?;
    let middle = format!(in alloc; "/{version}/")?;
    path.push_str(middle.as_str())?;
    push_name(alloc, &mut path, number)?;
    path.push_str(".cabal")?;
    Ok(path)
}

/// The file of a version that depends on these packages.
pub fn version_text(
    alloc: Global,
    number: u64,
    version: u64,
    needs: &[u64],
) -> Result<Text, NoMemory>
    ensures { IfOk result (λ text. text ≡ version_text number version needs.now) }
{
    let mut name = Text::new(alloc);
    push_name(alloc, &mut name, number)?;
    let mut text = plain_text(alloc, name.as_str(), version, needs)?;
    push_flag(&mut text, number, version)?;
    Ok(text)
}

/// The file of a package whose library depends on these packages.
pub fn plain_text(alloc: Global, name: &str, version: u64, needs: &[u64]) -> Result<Text, NoMemory>
    ensures { IfOk result (λ text. text ≡ plain_text name.now version needs.now) }
{
    let head = format!(in alloc;
        "cabal-version: 2.4\nname: {name}\nversion: {version}\nlibrary\n"
    )?;
    let mut text = Text::from_string(head);
    push_depends(alloc, &mut text, needs)?;
    Ok(text)
}

fn push_name(alloc: Global, text: &mut Text, number: u64) -> Result<(), NoMemory>
    ensures { OnOk result (text.new ≡ text.old ++ name number) }
{
    let name = format!(in alloc; "g{number:05}")?;
    text.push_str(name.as_str())
}

fn push_depends(alloc: Global, text: &mut Text, needs: &[u64]) -> Result<(), NoMemory>
    ensures { OnOk result (text.new ≡ text.old ++ depends_line needs.now) }
{
    let Some((first, others)) = needs.split_first() else {
        return Ok(());
    };
    text.push_str("  build-depends: ")?;
    push_name(alloc, text, *first)?;
    push_others(alloc, text, others)?;
    text.push_str("\n")
}

fn push_others(alloc: Global, text: &mut Text, others: &[u64]) -> Result<(), NoMemory>
    ensures { OnOk result (text.new ≡ text.old ++ flat_map name_behind others.now) }
{
    for other in others {
        text.push_str(", ")?;
        push_name(alloc, text, *other)?;
    }
    Ok(())
}

fn push_flag(text: &mut Text, number: u64, version: u64) -> Result<(), NoMemory>
    ensures { OnOk result (text.new ≡ text.old ++ flag_of number version) }
{
    if number % 7 == 0 && version == 3 {
        text.push_str(FLAG)
    } else {
        Ok(())
    }
}
