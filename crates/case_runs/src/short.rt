// Files in short form: packages with a library, and records of installed units.
use crate::content::bytes_of;
use outside_folder::MemFile;
use plan_types::{List, NoMemory, Text};
use std::alloc::Global;

/// Appends the files of a short form.
pub fn push_short(alloc: Global, files: &mut List<MemFile>, form: &str) -> Result<(), NoMemory> {
    let (kind, rest) = cut(form);
    match kind {
        "local" => push_package(alloc, files, "", ".cabal", rest),
        "source" => push_source(alloc, files, rest),
        "plain" => {
            let (path, package) = cut(rest);
            push_file(alloc, files, path, package_text(alloc, package)?.as_str())
        }
        "unit" => push_unit(alloc, files, rest),
        "units" => push_units(alloc, files, rest),
        // A file without a path is in no tree, so the case fails.
        _ => push_file(alloc, files, "", form),
    }
}

// The first word, and the text after it.
fn cut(words: &str) -> (&str, &str) {
    words.split_once(' ').unwrap_or((words, ""))
}

/// Appends a file with these lines of content.
pub fn push_file(
    alloc: Global,
    files: &mut List<MemFile>,
    path: &str,
    lines: &str,
) -> Result<(), NoMemory> {
    let path = Text::from_str(alloc, path)?;
    let bytes = bytes_of(alloc, lines)?;
    files.push(MemFile { path, bytes })
}

// The text of a package, from its name, version and dependencies.
fn package_text(alloc: Global, package: &str) -> Result<String, NoMemory> {
    let (name, rest) = cut(package);
    let (version, depends) = cut(rest);
    let head = "cabal-version: 2.4";
    let mut text = format!(in alloc; "{head}\nname: {name}\nversion: {version}\nlibrary\n")?;
    if !depends.is_empty() {
        write!(&mut text, "  build-depends: {depends}\n")?;
    }
    Ok(text)
}

fn push_package(
    alloc: Global,
    files: &mut List<MemFile>,
    folder: &str,
    ending: &str,
    package: &str,
) -> Result<(), NoMemory> {
    let (name, _) = cut(package);
    let path = format!(in alloc; "{folder}{name}{ending}")?;
    let text = package_text(alloc, package)?;
    push_file(alloc, files, path.as_str(), text.as_str())
}

fn push_source(alloc: Global, files: &mut List<MemFile>, package: &str) -> Result<(), NoMemory> {
    let (name, rest) = cut(package);
    let (version, _) = cut(rest);
    let folder = format!(in alloc; "index/{name}/{version}/")?;
    push_package(alloc, files, folder.as_str(), ".cabal", package)
}

// A unit is written as its identifier, the name and version of its package, and the units that it depends on.
fn push_unit(alloc: Global, files: &mut List<MemFile>, unit: &str) -> Result<(), NoMemory> {
    let (id, rest) = cut(unit);
    let (name, rest) = cut(rest);
    let (version, depends) = cut(rest);
    let path = format!(in alloc; "installed/{id}.conf")?;
    let mut text = format!(in alloc; "name: {name}\nversion: {version}\nid: {id}\n")?;
    if !depends.is_empty() {
        write!(&mut text, "depends: {depends}\n")?;
    }
    push_file(alloc, files, path.as_str(), text.as_str())
}

// Each word is the identifier, NAME-VERSION, of a unit without dependencies.
fn push_units(alloc: Global, files: &mut List<MemFile>, ids: &str) -> Result<(), NoMemory> {
    for id in ids.split(' ') {
        let (name, version) = id.rsplit_once('-').unwrap_or((id, ""));
        let unit = format!(in alloc; "{id} {name} {version}")?;
        push_unit(alloc, files, unit.as_str())?;
    }
    Ok(())
}
