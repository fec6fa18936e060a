// Packages, instances and flags by their numbers.
ghost use Rattle.std.specs.Prelude.{◌≡◌, IfOk};
ghost use Rattle.solver_index.specs.Places.{rising, number, flag_number};
ghost use Rattle.plan_types.specs.Packages.{entries_of, package_at};

use plan_types::{Entry, List, NoMemory, Package, Text};
use qualified_goals::Names;
use std::alloc::Global;

/// Whether a package is local.
pub fn is_local(packages: &[Package], p: u64) -> bool
    ensures { result ≡ (package_at packages.now p).local }
{
    match packages.get(p as usize) {
        Some(found) => found.local,
        None => false,
    }
}

/// The number of a package, or the one behind the last.
pub fn number(packages: &[Package], names: &Names, name: &Text) -> u64
    ensures { result ≡ number packages.now names.now name.now }
{
    match names.package(name) {
        Some(found) => found,
        None => packages.len() as u64,
    }
}

/// The number of a flag's name; 0 where it has none.
pub fn flag_number(names: &Names, name: &Text) -> u64
    ensures { result ≡ flag_number names.now name.now }
{
    match names.flag(name) {
        Some(found) => found,
        None => 0,
    }
}

/// The numbers below `count`, rising.
pub fn rising(alloc: Global, count: usize) -> Result<List<u64>, NoMemory>
    ensures { IfOk result (λ numbers. numbers ≡ rising count) }
{
    let mut numbers = List::new(alloc);
    for number in 0..count {
        numbers.push(number as u64)?;
    }
    Ok(numbers)
}
