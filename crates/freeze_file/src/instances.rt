// Chosen instances. A place out of range counts as an installed instance without a version.
ghost use Rattle.std.specs.Prelude.{◌≡◌, IfOk};
ghost use Rattle.std.specs.Option.{option_copied};
ghost use Rattle.plan_types.specs.Packages.{declared_by, is_installed, package_at};
ghost use Rattle.constraint_set.specs.Relaxed.{is_version};
ghost use Rattle.frozen_choices.specs.Frozen.{are_alike, entry_of, is_uniform};
ghost use Rattle.freeze_file.specs.Steps.{or_none};

use choice_problem::Choice;
use plan_types::{Entry, FlagDecl, List, NoMemory, Package, Version};
use std::alloc::Global;

/// The name of a package.
pub(crate) fn name_at(packages: &[Package], p: u64) -> &str
    ensures { result.now ≡ (package_at packages.now p).name }
{
    match packages.get(p as usize) {
        Some(found) => found.name.as_str(),
        None => "",
    }
}

/// The instance of a choice.
pub(crate) fn entry_of<'a>(packages: &'a [Package], choice: &Choice) -> Option<&'a Entry>
    ensures { or_none (option_copied result) ≡ entry_of packages.now choice.now }
{
    Package::entries_at(packages, choice.var.package).get(choice.val as usize)
}

/// The flags that an instance declares.
pub(crate) fn declared_flags(entry: Option<&Entry>) -> &[FlagDecl]
    ensures { result.now ≡ declared_by (or_none (option_copied entry.entry)).body }
{
    match entry {
        Some(entry) => entry.body.declared_flags(),
        None => &[],
    }
}

/// Whether an instance is installed.
pub(crate) fn is_installed(entry: Option<&Entry>) -> bool
    ensures { result ≡ is_installed (or_none (option_copied entry.entry)).body }
{
    match entry {
        Some(entry) => entry.body.is_installed(),
        None => true,
    }
}

/// The version of an instance.
pub(crate) fn version_of(alloc: Global, entry: Option<&Entry>) -> Result<Version, NoMemory>
    ensures { IfOk result (λ version. version ≡ (or_none (option_copied entry.entry)).instance.version) }
{
    match entry {
        Some(entry) => entry.instance.version.copy(alloc),
        None => Ok(Version {
            parts: List::new(alloc),
        }),
    }
}

/// Whether the instances of these choices are all alike.
pub(crate) fn is_uniform(packages: &[Package], first: &Choice, choices: &[Choice]) -> bool
    ensures { result ≡ is_uniform packages.now first.now choices.now }
{
    let entry = entry_of(packages, first);
    choices
        .iter()
        .all(|choice| are_alike(entry, entry_of(packages, choice)))
}

fn are_alike(one: Option<&Entry>, other: Option<&Entry>) -> bool
    ensures { result ≡ are_alike (or_none (option_copied one.entry)) (or_none (option_copied other.entry)) }
{
    have_one_version(one, other) && is_installed(one) == is_installed(other)
}

fn have_one_version(one: Option<&Entry>, other: Option<&Entry>) -> bool
    ensures { result ≡ is_version (or_none (option_copied one.entry)).instance.version
        (or_none (option_copied other.entry)).instance.version }
{
    version_parts(one) == version_parts(other)
}

fn version_parts(entry: Option<&Entry>) -> &[u32]
    ensures { result.now ≡ (or_none (option_copied entry.entry)).instance.version.parts }
{
    match entry {
        Some(entry) => entry.instance.version.parts.as_slice(),
        None => &[],
    }
}
