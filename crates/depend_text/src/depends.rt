// Dependencies on libraries and on executables.
ghost use Rattle.std.specs.Prelude.{◌≡◌, List, IfOk, IfErr, MatchResult};
ghost use Rattle.plan_types.specs.declared.dependency.Dep.{Dep};
ghost use Rattle.plan_types.specs.declared.refusal.Cause.{Cause};
ghost use Rattle.plan_types.specs.Refusal.{Refuses};
ghost use Rattle.depend_text.specs.Depends.{Depends, DependsFault, Tools, ToolsFault};

use crate::part::{executable, libraries};
use entry_text::{EntryKind, name_at, package_text, read_entries};
use plan_types::{Cause, Dep, DepKind, List, Spec, Text, TextFault, is_package_name};
use std::alloc::Global;
use version_range::read_range;

/// Reads the text of `build-depends` or of `setup-depends`.
pub fn read_depends(
    alloc: Global,
    text: &[u8],
    line: u32,
    kind: DepKind,
    spec: Spec,
) -> Result<List<Dep>, TextFault>
    ensures entries { IfOk result (Depends spec kind line text.now) }
    ensures fault { IfErr result (Refuses (DependsFault spec kind line text.now)) }
    // Complete for entries: a text that denotes entries gives them, or out of memory.
    ensures exactly_entries { (deps : List Dep) → Depends spec kind line text.now deps →
        MatchResult result (λ found. found ≡ deps) (Refuses (λ _. ⊥)) }
    // Complete for faults: a text with a fault gives it, or out of memory.
    ensures exactly_faults { (cause : Cause) → DependsFault spec kind line text.now cause →
        MatchResult result (λ _. ⊥) (Refuses (λ why. why ≡ cause)) }
{
    let row = Packages { line, kind, spec };
    read_entries(alloc, &row, text)
}

/// Reads the text of `build-tool-depends`.
pub fn read_tools(alloc: Global, text: &[u8], line: u32, spec: Spec) -> Result<List<Dep>, TextFault>
    ensures entries { IfOk result (Tools spec line text.now) }
    ensures fault { IfErr result (Refuses (ToolsFault spec line text.now)) }
    ensures exactly_entries { (deps : List Dep) → Tools spec line text.now deps →
        MatchResult result (λ found. found ≡ deps) (Refuses (λ _. ⊥)) }
    ensures exactly_faults { (cause : Cause) → ToolsFault spec line text.now cause →
        MatchResult result (λ _. ⊥) (Refuses (λ why. why ≡ cause)) }
{
    let row = Executables { line, spec };
    read_entries(alloc, &row, text)
}

// Dependencies on libraries.
#[derive(Clone, Copy)]
struct Packages {
    line: u32,
    kind: DepKind,
    spec: Spec,
}

impl EntryKind for Packages {
    ghost use Rattle.depend_text.specs.Depends.{LibraryEntry, LibraryFault};

    type Item = Dep;

    ghost stands = { λ row. LibraryEntry row.spec row.kind row.line };

    ghost fails = { λ row. LibraryFault row.spec };

    fn read(&self, alloc: Global, part: &[u8]) -> Result<Dep, TextFault> {
        let (name, behind) = name_at(part);
        if !is_package_name(name) {
            return Err(TextFault::Bad(Cause::BadName));
        }
        let (libs, range_text) = libraries(alloc, self.spec, name, behind)?;
        let range = read_range(alloc, range_text, self.spec)?;
        let package = package_text(alloc, name)?;
        Ok(Dep {
            line: self.line,
            kind: self.kind,
            package,
            libs,
            exe: Text::new(alloc),
            range,
            internal: false,
        })
    }
}

// Dependencies on executables.
#[derive(Clone, Copy)]
struct Executables {
    line: u32,
    spec: Spec,
}

impl EntryKind for Executables {
    ghost use Rattle.depend_text.specs.Depends.{ToolEntry, ToolFault};

    type Item = Dep;

    ghost stands = { λ row. ToolEntry row.spec row.line };

    ghost fails = { λ row. ToolFault row.spec };

    fn read(&self, alloc: Global, part: &[u8]) -> Result<Dep, TextFault> {
        let (name, behind) = name_at(part);
        if !is_package_name(name) {
            return Err(TextFault::Bad(Cause::BadName));
        }
        let (exe, range_text) = executable(alloc, behind)?;
        let range = read_range(alloc, range_text, self.spec)?;
        let package = package_text(alloc, name)?;
        Ok(Dep {
            line: self.line,
            kind: DepKind::Tool,
            package,
            libs: List::new(alloc),
            exe,
            range,
            internal: false,
        })
    }
}
