// The generated folder.
ghost use Rattle.std.specs.Prelude.{◌≡◌, ◌≤◌, ◌+◌, ℕ, [], ◌++◌, IfOk, OnOk};
ghost use Rattle.outside_folder.specs.MemFile.{told};
ghost use Rattle.outside_folder.specs.MemFolder.{mem_fail_at, mem_files};
ghost use Rattle.plan_generate.specs.Draws.{after_draws, draws_before, draws_each};
ghost use Rattle.plan_generate.specs.Generated.{generated, main_file, package_files, packages, told_file, version_file};

use crate::draws::Draws;
use crate::text::{plain_text, version_path, version_text};
use outside_folder::{MemFault, MemFile, MemFolder};
use plan_types::{List, NoMemory, Text};
use std::alloc::Global;

/// The folder of so many packages. No call on it fails.
pub fn generate(alloc: Global, count: u32) -> Result<MemFolder, NoMemory>
    requires { (1 ≤ count) × (count ≤ 2000) }
    ensures files { IfOk result (λ folder. mem_files folder ≡ generated count) }
    ensures no_fault { IfOk result (λ folder. mem_fail_at folder ≡ []) }
{
    let files = files_of(alloc, count as u64)?;
    match MemFolder::new(alloc, files, List::new(alloc)) {
        Ok(folder) => Ok(folder),
        Err(MemFault::NoMemory) => Err(NoMemory),
        Err(MemFault::BadTree) => unreachable!(),
    }
}

fn files_of(alloc: Global, count: u64) -> Result<List<MemFile>, NoMemory>
    requires { count ≤ 2000 }
    ensures { IfOk result (λ files. told files ≡ generated count) }
{
    let mut draws = Draws::new(count);
    let mut files = List::new(alloc);
    for number in 1..count + 1 {
        push_package(alloc, &mut files, &mut draws, number)?;
    }
    files.push(main_file(alloc, count)?)?;
    Ok(files)
}

// Appends the versions of a package.
fn push_package(
    alloc: Global,
    files: &mut List<MemFile>,
    draws: &mut Draws,
    number: u64,
) -> Result<(), NoMemory>
    requires { 1 ≤ number }
    ensures files { (seed : ℕ) → draws.old.last ≡ after_draws seed (draws_before number 1) →
        OnOk result (told files.new ≡ told files.old ++ package_files seed number) }
    ensures last { (seed : ℕ) → draws.old.last ≡ after_draws seed (draws_before number 1) →
        OnOk result (draws.new.last ≡ after_draws seed (draws_before (number + 1) 1)) }
{
    for version in 1..4 {
        files.push(version_file(alloc, draws, number, version)?)?;
    }
    Ok(())
}

fn version_file(
    alloc: Global,
    draws: &mut Draws,
    number: u64,
    version: u64,
) -> Result<MemFile, NoMemory>
    ensures file { (seed : ℕ) → draws.old.last ≡ after_draws seed (draws_before number version) →
        IfOk result (λ file. told_file file ≡ version_file seed number version) }
    ensures last { draws.new.last ≡ after_draws draws.old.last (draws_each number) }
{
    let needs = draws.draw_needs(alloc, number)?;
    let text = version_text(alloc, number, version, needs.as_slice())?;
    let path = version_path(alloc, number, version)?;
    file_of(alloc, path, &text)
}

// The local package, which depends on all.
fn main_file(alloc: Global, count: u64) -> Result<MemFile, NoMemory>
    requires { count ≤ 2000 }
    ensures { IfOk result (λ file. told_file file ≡ main_file count) }
{
    let packages = packages(alloc, count)?;
    let text = plain_text(alloc, "main", 1, packages.as_slice())?;
    let path = Text::from_str(alloc, "main.cabal")?;
    file_of(alloc, path, &text)
}

fn packages(alloc: Global, count: u64) -> Result<List<u64>, NoMemory>
    requires { count ≤ 2000 }
    ensures { IfOk result (λ all. all ≡ packages count) }
{
    let mut all = List::new(alloc);
    for number in 1..count + 1 {
        all.push(number)?;
    }
    Ok(all)
}

fn file_of(alloc: Global, path: Text, text: &Text) -> Result<MemFile, NoMemory>
    ensures { IfOk result (λ file. told_file file ≡ (path, text.now)) }
{
    let bytes = List::from_vec(Vec::from_slice(alloc, text.as_bytes())?);
    Ok(MemFile { path, bytes })
}
