// The flags of a package.

ghost use Rattle.std.specs.Prelude.{◌≡◌, unwrap_or, IfOk, OnOk};
ghost use Rattle.std.specs.List.Sorted.{IsPermutation, IsSortedBy, IsStableBy};
ghost use Rattle.package_declarations.specs.Flags.{AreFlags, declared_flags, default_said, flag_of, manual_said, name_before};
ghost use Rattle.text_grammar.specs.Last.{last_given};

use plan_types::{FlagDecl, List, NoMemory};
use section_syntax::{Said, Section, SectionKind, SectionPart};
use std::alloc::Global;

/// The flags, sorted by name.
pub fn flags(alloc: Global, sections: &[Section]) -> Result<List<FlagDecl>, NoMemory>
    ensures { IfOk result (AreFlags sections.now) }
{
    let mut flags = declared(alloc, sections)?;
    sort(&mut flags)?;
    Ok(List::from_vec(flags))
}

fn declared(alloc: Global, sections: &[Section]) -> Result<Vec<FlagDecl>, NoMemory>
    ensures { IfOk result (λ flags. flags.items ≡ declared_flags sections.now) }
{
    let mut flags = Vec::new(alloc);
    for section in sections {
        if section.kind == SectionKind::Flag {
            flags.push(flag(section)?)?;
        }
    }
    Ok(flags)
}

fn sort(flags: &mut Vec<FlagDecl>) -> Result<(), NoMemory>
    ensures permutation { OnOk result (IsPermutation flags.old.items flags.new.items) }
    ensures sorted { OnOk result (IsSortedBy name_before flags.new.items) }
    ensures stable { OnOk result (IsStableBy name_before flags.old.items flags.new.items) }
{
    flags.sort_by(|one, other| one.name.cmp(&other.name))?;
    Ok(())
}

fn flag(section: &Section) -> Result<FlagDecl, NoMemory>
    ensures { IfOk result (λ found. found ≡ flag_of section.now) }
{
    let name = section.name.copy()?;
    let mut flag = FlagDecl {
        line: section.line,
        name,
        default: true,
        manual: false,
    };
    set_all(&mut flag, section.parts.as_slice());
    Ok(flag)
}

// The last value of a field counts.
fn set_all(flag: &mut FlagDecl, parts: &[SectionPart])
    ensures { flag.new ≡ record flag.old {
      default = unwrap_or (last_given (λ part. default_said part.said) parts.now) flag.old.default;
      manual = unwrap_or (last_given (λ part. manual_said part.said) parts.now) flag.old.manual;
    } }
{
    for part in parts {
        set(flag, &part.said);
    }
}

fn set(flag: &mut FlagDecl, said: &Said)
    ensures { flag.new ≡ record flag.old {
      default = unwrap_or (default_said said.now) flag.old.default;
      manual = unwrap_or (manual_said said.now) flag.old.manual;
    } }
{
    match said {
        Said::Default(Some(on)) => flag.default = *on,
        Said::Manual(Some(on)) => flag.manual = *on,
        _ => {}
    }
}
