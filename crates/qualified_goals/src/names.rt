// The numbers of packages and flags, and their names.
ghost use Rattle.std.specs.Prelude.{◌≡◌, ◌<◌, ◌++◌, [], ◌∷◌, List, ℕ, length, map, fold, flat_map, IfOk, IfSome, OnOk};
ghost use Rattle.std.specs.List.{IsDistinct};
ghost use Rattle.std.specs.List.Sorted.{IsStrictlySortedBy};
ghost use Rattle.std.specs.Ordering.{nat_cmp};
ghost use Rattle.std.specs.Cmp.Lexicographic.{slice_cmp};
ghost use Rattle.indexmap.specs.IndexSet.{insert_key};
ghost use Rattle.qualified_goals.specs.Names.{AreInGoalOrder, AreNumbers, IsGoalOrder, Name, flag_names, flags_in, is_listed, name_of, number_of, package_names};
ghost use Rattle.qualified_goals.specs.Printed.{part_text, qual_text, var_text};
ghost use Rattle.plan_types.specs.Bytes.{same_text};
ghost use Rattle.plan_types.specs.Packages.{declared_by};

use crate::{Part, Qual, Var};
use indexmap::IndexSet;
use plan_types::{Body, FlagDecl, Index, NoMemory, Package, Text, drop_fields};
use std::alloc::Global;
use std::marker::Model;

/// The names behind the numbers of variables. A package's number is its place in the index. A flag's number is its
/// place among the names of all flags, in byte order.
#[derive(Debug)]
pub struct Names {
    packages: IndexSet<Text>,
    flags: IndexSet<Text>,
}

impl Drop for Names {
    fn drop(self) {
        drop_fields!(self; packages, flags);
    }
}

impl Model for Names {
    ghost use Rattle.qualified_goals.specs.Names.{NameTable};

    ghost Value = { NameTable };

    ghost view = { λ n. record { packages = n.packages.keys; flags = n.flags.keys } };
}

impl Names {
    /// Numbers the names of an index.
    pub fn of(alloc: Global, index: &Index) -> Result<Names, NoMemory>
        requires { AreInGoalOrder index.now.packages }
        ensures names { IfOk result (λ names. AreNumbers index.now.packages names) }
        ensures order { IfOk result (λ names. IsGoalOrder index.now.packages names) }
    {
        let packages = numbered_packages(alloc, index.packages.as_slice())?;
        let flags = numbered_flags(alloc, index.packages.as_slice())?;
        Ok(Names { packages, flags })
    }

    /// The number of a package.
    pub fn package(&self, name: &Text) -> Option<u64>
        ensures number { result ≡ number_of self.now.packages name.now }
        ensures within { IfSome result (λ number. number < length self.now.packages) }
    {
        number_in(&self.packages, name)
    }

    /// The number of a flag's name, which is in lower case.
    pub fn flag(&self, name: &Text) -> Option<u64>
        ensures number { result ≡ number_of self.now.flags name.now }
        ensures within { IfSome result (λ number. number < length self.now.flags) }
    {
        number_in(&self.flags, name)
    }

    /// The printed form of a variable. A number outside the table has an empty name.
    pub fn print_var(&self, alloc: Global, v: Var) -> Result<Text, NoMemory>
        ensures { IfOk result (λ text. text ≡ var_text self.now v) }
    {
        let mut text = Text::new(alloc);
        self.push_qual(&mut text, v.qual)?;
        text.push_str(name_in(&self.packages, v.package))?;
        self.push_part(&mut text, v.part)?;
        Ok(text)
    }

    fn push_qual(&self, text: &mut Text, qual: Qual) -> Result<(), NoMemory>
        ensures { OnOk result (text.new ≡ text.old ++ qual_text self.now qual) }
    {
        match qual {
            Qual::Top => Ok(()),
            Qual::Setup(package) => {
                text.push_str(name_in(&self.packages, package))?;
                text.push_str(":setup.")
            }
            Qual::Exe(package, tool) => {
                text.push_str(name_in(&self.packages, package))?;
                text.push_str(":")?;
                text.push_str(name_in(&self.packages, tool))?;
                text.push_str(":exe.")
            }
        }
    }

    fn push_part(&self, text: &mut Text, part: Part) -> Result<(), NoMemory>
        ensures { OnOk result (text.new ≡ text.old ++ part_text self.now part) }
    {
        match part {
            Part::Package => Ok(()),
            Part::Flag(flag) => {
                text.push_str(":")?;
                text.push_str(name_in(&self.flags, flag))
            }
            Part::Tests => text.push_str(":*test"),
            Part::Benches => text.push_str(":*bench"),
        }
    }
}

fn number_in(names: &IndexSet<Text>, name: &Text) -> Option<u64>
    ensures number { result ≡ number_of names.now.keys name.now }
    ensures within { IfSome result (λ number. number < length names.now.keys) }
{
    let place = names.get_index_of(name)?;
    Some(place as u64)
}

fn name_in(names: &IndexSet<Text>, number: u64) -> &str
    ensures { result.now ≡ name_of names.now.keys number }
{
    match names.get_index(number as usize) {
        Some(name) => name.as_str(),
        None => "",
    }
}

fn numbered_packages(alloc: Global, packages: &[Package]) -> Result<IndexSet<Text>, NoMemory>
    requires { IsDistinct same_text (package_names packages.now) }
    ensures { IfOk result (λ names. names.keys ≡ package_names packages.now) }
{
    let mut names = IndexSet::new(alloc);
    for package in packages {
        names.insert(package.name.copy()?)?;
    }
    Ok(names)
}

fn numbered_flags(alloc: Global, packages: &[Package]) -> Result<IndexSet<Text>, NoMemory>
    ensures rising { IfOk result (λ names. IsStrictlySortedBy (slice_cmp nat_cmp) names.keys) }
    ensures names { IfOk result (λ names. (name : Name)
        → is_listed names.keys name ≡ is_listed (flag_names packages.now) name) }
{
    let mut names = declared_flags(alloc, packages)?;
    names.sort()?;
    Ok(names)
}

fn declared_flags(alloc: Global, packages: &[Package]) -> Result<IndexSet<Text>, NoMemory>
    ensures { IfOk result (λ names. names.keys ≡ fold (insert_key same_text) [] (flag_names packages.now)) }
{
    let mut names = IndexSet::new(alloc);
    for package in packages {
        add_package(&mut names, package)?;
    }
    Ok(names)
}

fn add_package(names: &mut IndexSet<Text>, package: &Package) -> Result<(), NoMemory>
    ensures { OnOk result (names.new.keys
        ≡ fold (insert_key same_text) names.old.keys (map (λ f. f.name) (flags_in «package».now))) }
{
    for entry in package.entries.as_slice() {
        add_flags(names, entry.body.declared_flags())?;
    }
    Ok(())
}

fn add_flags(names: &mut IndexSet<Text>, flags: &[FlagDecl]) -> Result<(), NoMemory>
    ensures { OnOk result (names.new.keys ≡ fold (insert_key same_text) names.old.keys (map (λ f. f.name) flags.now)) }
{
    for flag in flags {
        names.insert(flag.name.copy()?)?;
    }
    Ok(())
}
