// Flags with their values in a trail.
ghost use Rattle.std.specs.Prelude.{◌≡◌, ◌++◌, IfOk, OnOk, filter, map};
ghost use Rattle.frozen_choices.specs.Frozen.{flag_beside, is_automatic, is_manual, is_turned_on};
ghost use Rattle.freeze_file.specs.Steps.{AddsManual, AreThose};

use crate::numbers::{add, has};
use choice_problem::{Choice, Trail};
use indexmap::IndexSet;
use plan_types::{Entry, FlagDecl, FlagSet, List, NoMemory};
use qualified_goals::{Names, Part, Var};
use solver_index::flag_number;
use std::alloc::Global;

/// These flags, with their values in the trail under the choice's qualifier.
pub(crate) fn flags_beside(
    alloc: Global,
    names: &Names,
    trail: &Trail,
    choice: &Choice,
    flags: &[FlagDecl],
) -> Result<List<FlagSet>, NoMemory>
    ensures { IfOk result (λ sets. sets ≡ map (flag_beside names.now trail.now choice.now) flags.now) }
{
    let mut sets = List::new(alloc);
    for flag in flags {
        let set = flag_beside(names, trail, choice, flag)?;
        sets.push(set)?;
    }
    Ok(sets)
}

/// The same for flags that no instance of the package declares as manual.
pub(crate) fn automatic_beside(
    alloc: Global,
    names: &Names,
    trail: &Trail,
    choice: &Choice,
    flags: &[FlagDecl],
    entries: &[Entry],
) -> Result<List<FlagSet>, NoMemory>
    ensures { IfOk result (λ sets. sets ≡ map (flag_beside names.now trail.now choice.now)
        (filter (is_automatic names.now entries.now) flags.now)) }
{
    let manual = manual_flags(alloc, names, entries)?;
    let mut sets = List::new(alloc);
    for flag in flags {
        if !has(&manual, flag_number(names, &flag.name)) {
            let set = flag_beside(names, trail, choice, flag)?;
            sets.push(set)?;
        }
    }
    Ok(sets)
}

fn flag_beside(
    names: &Names,
    trail: &Trail,
    choice: &Choice,
    flag: &FlagDecl,
) -> Result<FlagSet, NoMemory>
    ensures { IfOk result (λ set. set ≡ flag_beside names.now trail.now choice.now flag.now) }
{
    let value = trail.value_of(Var {
        qual: choice.var.qual,
        package: choice.var.package,
        part: Part::Flag(flag_number(names, &flag.name)),
    });
    let name = flag.name.copy()?;
    Ok(FlagSet {
        name,
        on: is_turned_on(value),
    })
}

fn is_turned_on(value: Option<u64>) -> bool
    ensures { result ≡ is_turned_on value }
{
    match value {
        Some(n) => n == 1,
        None => false,
    }
}

// The numbers of the flags that some instance declares as manual.
fn manual_flags(alloc: Global, names: &Names, entries: &[Entry]) -> Result<IndexSet<u64>, NoMemory>
    ensures { IfOk result (AreThose (is_manual names.now entries.now)) }
{
    let mut manual = IndexSet::new(alloc);
    for entry in entries {
        add_manual(&mut manual, names, entry.body.declared_flags())?;
    }
    Ok(manual)
}

fn add_manual(manual: &mut IndexSet<u64>, names: &Names, flags: &[FlagDecl]) -> Result<(), NoMemory>
    ensures { OnOk result (AddsManual names.now flags.now manual.old manual.new) }
{
    for flag in flags {
        if flag.manual {
            add(manual, flag_number(names, &flag.name))?;
        }
    }
    Ok(())
}
