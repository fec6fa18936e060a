// The named ranges of a project.
ghost use Rattle.std.specs.Prelude.{◌≡◌, List, IfOk, IfErr, MatchResult};
ghost use Rattle.plan_types.specs.declared.dependency.Named.{Named};
ghost use Rattle.plan_types.specs.declared.range.Range.{Range};
ghost use Rattle.plan_types.specs.declared.range.Spec.TheVariants.{V3_0};
ghost use Rattle.plan_types.specs.declared.refusal.Cause.{Cause};
ghost use Rattle.plan_types.specs.Refusal.{Refuses};
ghost use Rattle.version_range.specs.Grammar.{Stands};
ghost use Rattle.constraint_text.specs.Faults.{IsBadConstraint};
ghost use Rattle.constraint_text.specs.Named.{NamedRanges, NamedFault};

use entry_text::{EntryKind, name_at, package_text, read_entries};
use plan_types::{Cause, List, Named, Range, Spec, TextFault, is_package_name};
use std::alloc::Global;
use version_range::read_range;

/// Reads the text of `extra-packages` or of `preferences`.
pub fn read_named(alloc: Global, text: &[u8]) -> Result<List<Named>, TextFault>
    ensures entries { IfOk result (NamedRanges text.now) }
    ensures fault { IfErr result (Refuses (NamedFault text.now)) }
    ensures exactly_entries { (ranges : List Named) → NamedRanges text.now ranges →
        MatchResult result (λ found. found ≡ ranges) (Refuses (λ _. ⊥)) }
    ensures exactly_faults { (cause : Cause) → NamedFault text.now cause →
        MatchResult result (λ _. ⊥) (Refuses (λ why. why ≡ cause)) }
{
    read_entries(alloc, &NamedRow, text)
}

/// Reads a range in a project. Each fault is `BadConstraint`.
pub fn project_range(alloc: Global, text: &[u8]) -> Result<Range, TextFault>
    ensures found { IfOk result (Stands V3_0 64 text.now) }
    ensures fault { IfErr result (Refuses (IsBadConstraint (Stands V3_0 64) text.now)) }
{
    match read_range(alloc, text, Spec::V3_0) {
        Ok(range) => Ok(range),
        Err(TextFault::NoMemory) => Err(TextFault::NoMemory),
        Err(TextFault::Bad(_)) => Err(TextFault::Bad(Cause::BadConstraint)),
    }
}

#[derive(Clone, Copy)]
struct NamedRow;

impl EntryKind for NamedRow {
    ghost use Rattle.constraint_text.specs.Faults.{IsBadConstraint};
    ghost use Rattle.constraint_text.specs.Named.{NamedEntry};

    type Item = Named;

    ghost stands = { λ row. NamedEntry };

    ghost fails = { λ row. IsBadConstraint NamedEntry };

    fn read(&self, alloc: Global, part: &[u8]) -> Result<Named, TextFault> {
        let (name, behind) = name_at(part);
        if !is_package_name(name) {
            return Err(TextFault::Bad(Cause::BadConstraint));
        }
        let range = project_range(alloc, behind)?;
        let name = package_text(alloc, name)?;
        Ok(Named { name, range })
    }
}
