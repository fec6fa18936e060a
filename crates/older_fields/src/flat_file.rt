// Files without sections.

ghost use Rattle.std.specs.Prelude.{◌≡◌, ◌++◌, ◌∷◌, ◌≤◌, ◌*◌, [], length, nat_lt, flat_map, IfOk, OnOk};
ghost use Rattle.std.specs.List.{list_all, list_any};
ghost use Rattle.plan_types.specs.declared.element.Element.TheVariants.{Section};
ghost use Rattle.older_fields.specs.Flat.{is_module_field, is_source_field, is_option_field, is_library_list, is_language_field, is_library_field, is_kind, field_of, own_field, is_executable, front_len, library, executable_items, executable, some_executable, executables, flat, moves, file_limit, shared_size, executables_in, is_too_large};
ghost use Rattle.older_fields.specs.Items.{is_field};

use crate::copies::{push_copy, push_section};
use crate::item::{is_field, is_field_named, line_of, text_of};
use cabal_lexer::print_elements;
use plan_types::{Element, List, NoMemory, Text};
use std::alloc::Global;

/// The most bytes of a file that the planner reads.
const FILE_LIMIT: usize = 1_048_576;

/// A kind of field in a file without sections.
#[derive(Clone, Copy, Debug, PartialEq, Eq)]
pub enum FieldKind {
    /// Of the package.
    Package,
    /// `build-depends`, which each component has.
    Depends,
    /// Any other field of a library.
    Library,
}

fn is_module_field(name: &str) -> bool
    ensures { result ≡ is_module_field name.now }
{
    match name {
        "exposed-modules" => true,
        "reexported-modules" => true,
        "signatures" => true,
        "exposed" => true,
        "other-modules" => true,
        "virtual-modules" => true,
        "autogen-modules" => true,
        "mixins" => true,
        "buildable" => true,
        "build-tools" => true,
        "build-tool-depends" => true,
        "pkgconfig-depends" => true,
        _ => false,
    }
}

fn is_source_field(name: &str) -> bool
    ensures { result ≡ is_source_field name.now }
{
    match name {
        "hs-source-dirs" => true,
        "hs-source-dir" => true,
        "asm-sources" => true,
        "cmm-sources" => true,
        "c-sources" => true,
        "cxx-sources" => true,
        "js-sources" => true,
        "include-dirs" => true,
        "includes" => true,
        "autogen-includes" => true,
        "install-includes" => true,
        _ => false,
    }
}

fn is_option_field(name: &str) -> bool
    ensures { result ≡ is_option_field name.now }
{
    match name {
        "cpp-options" => true,
        "asm-options" => true,
        "cmm-options" => true,
        "cc-options" => true,
        "cxx-options" => true,
        "ld-options" => true,
        "ghc-options" => true,
        "ghcjs-options" => true,
        "jhc-options" => true,
        "hugs-options" => true,
        "nhc98-options" => true,
        "ghc-prof-options" => true,
        "ghcjs-prof-options" => true,
        "ghc-shared-options" => true,
        "ghcjs-shared-options" => true,
        _ => false,
    }
}

fn is_library_list(name: &str) -> bool
    ensures { result ≡ is_library_list name.now }
{
    match name {
        "frameworks" => true,
        "extra-framework-dirs" => true,
        "extra-libraries" => true,
        "extra-ghci-libraries" => true,
        "extra-bundled-libraries" => true,
        "extra-library-flavours" => true,
        "extra-dynamic-library-flavours" => true,
        "extra-lib-dirs" => true,
        _ => false,
    }
}

fn is_language_field(name: &str) -> bool
    ensures { result ≡ is_language_field name.now }
{
    match name {
        "default-language" => true,
        "other-languages" => true,
        "default-extensions" => true,
        "other-extensions" => true,
        "extensions" => true,
        _ => false,
    }
}

/// Whether it is a field of a library, other than `build-depends`.
fn is_library_field(name: &str) -> bool
    ensures { result ≡ is_library_field name.now }
{
    is_module_field(name)
        || is_source_field(name)
        || is_option_field(name)
        || is_library_list(name)
        || is_language_field(name)
}

fn is_kind(kind: FieldKind, name: &str) -> bool
    ensures { result ≡ is_kind kind name.now }
{
    match kind {
        FieldKind::Package => name != "build-depends" && !is_library_field(name),
        FieldKind::Depends => name == "build-depends",
        FieldKind::Library => is_library_field(name),
    }
}

fn push_field_of(
    alloc: Global,
    kind: FieldKind,
    item: &Element,
    out: &mut List<Element>,
) -> Result<(), NoMemory>
    ensures { OnOk result (out.new ≡ out.old ++ field_of kind item.now) }
{
    match item {
        Element::Field { line, name, values } => {
            if is_kind(kind, name.as_str()) {
                push_copy(alloc, *line, name, values, out)
            } else {
                Ok(())
            }
        }
        Element::Section { .. } => Ok(()),
    }
}

fn push_fields_of(
    alloc: Global,
    kind: FieldKind,
    items: &[Element],
    out: &mut List<Element>,
) -> Result<(), NoMemory>
    ensures { OnOk result (out.new ≡ out.old ++ flat_map (field_of kind) items.now) }
{
    for item in items {
        push_field_of(alloc, kind, item, out)?;
    }
    Ok(())
}

fn push_own_field(alloc: Global, item: &Element, out: &mut List<Element>) -> Result<(), NoMemory>
    ensures { OnOk result (out.new ≡ out.old ++ own_field item.now) }
{
    match item {
        Element::Field { line, name, values } => push_copy(alloc, *line, name, values, out),
        Element::Section { .. } => Ok(()),
    }
}

fn push_own_fields(
    alloc: Global,
    items: &[Element],
    out: &mut List<Element>,
) -> Result<(), NoMemory>
    ensures { OnOk result (out.new ≡ out.old ++ flat_map own_field items.now) }
{
    for item in items {
        push_own_field(alloc, item, out)?;
    }
    Ok(())
}

fn is_executable(item: &Element) -> bool
    ensures { result ≡ is_executable item.now }
{
    is_field_named(item, "executable")
}

// The number of elements before the first executable.
fn front_len(items: &[Element]) -> usize
    ensures count { result ≡ front_len items.now }
    ensures within { result ≤ length items.now }
{
    items.iter().take_while(|item| !is_executable(item)).count()
}

// The library has the fields before the first executable.
fn push_library(alloc: Global, front: &[Element], out: &mut List<Element>) -> Result<(), NoMemory>
    ensures { OnOk result (out.new ≡ out.old ++ library front.now) }
{
    let mut fields = List::new(alloc);
    push_fields_of(alloc, FieldKind::Library, front, &mut fields)?;
    let Some(first) = fields.as_slice().first() else {
        return Ok(());
    };
    let line = line_of(first);
    let mut items = List::new(alloc);
    push_fields_of(alloc, FieldKind::Depends, front, &mut items)?;
    items.append(&mut fields)?;
    push_section(alloc, line, "library", Text::new(alloc), items, out)
}

fn executable_items(
    alloc: Global,
    front: &[Element],
    behind: &[Element],
) -> Result<List<Element>, NoMemory>
    ensures { IfOk result (λ items. items ≡ executable_items front.now behind.now) }
{
    let (own, _) = behind.split_at(front_len(behind));
    let mut items = List::new(alloc);
    push_fields_of(alloc, FieldKind::Depends, front, &mut items)?;
    push_own_fields(alloc, own, &mut items)?;
    Ok(items)
}

// An executable has the fields up to the next one.
fn push_executable(
    alloc: Global,
    front: &[Element],
    item: &Element,
    behind: &[Element],
    out: &mut List<Element>,
) -> Result<(), NoMemory>
    ensures { OnOk result (out.new ≡ out.old ++ executable front.now item.now behind.now) }
{
    let items = executable_items(alloc, front, behind)?;
    let name = text_of(alloc, item)?;
    push_section(alloc, line_of(item), "executable", name, items, out)
}

fn push_some_executable(
    alloc: Global,
    front: &[Element],
    item: &Element,
    behind: &[Element],
    out: &mut List<Element>,
) -> Result<(), NoMemory>
    ensures { OnOk result (out.new ≡ out.old ++ some_executable front.now item.now behind.now) }
{
    if is_executable(item) {
        push_executable(alloc, front, item, behind, out)
    } else {
        Ok(())
    }
}

fn push_executables(
    alloc: Global,
    front: &[Element],
    items: &[Element],
    out: &mut List<Element>,
) -> Result<(), NoMemory>
    ensures { OnOk result (out.new ≡ out.old ++ executables front.now items.now) }
{
    let mut rest = items;
    while let [item, behind @ ..] = rest {
        push_some_executable(alloc, front, item, behind, out)?;
        rest = behind;
    }
    Ok(())
}

/// The fields of a file in sections.
pub fn flat(alloc: Global, items: &[Element]) -> Result<List<Element>, NoMemory>
    ensures { IfOk result (λ out. out ≡ flat items.now) }
{
    let (front, behind) = items.split_at(front_len(items));
    let mut out = List::new(alloc);
    push_fields_of(alloc, FieldKind::Package, front, &mut out)?;
    push_library(alloc, front, &mut out)?;
    push_executables(alloc, front, behind, &mut out)?;
    Ok(out)
}

/// Whether a file has no sections.
pub fn all_fields(items: &[Element]) -> bool
    ensures { result ≡ list_all is_field items.now }
{
    items.iter().all(|item| is_field(item))
}

/// Whether so many copies of a text are more than a file may have.
fn is_over(bytes: usize, copies: usize) -> bool
    ensures { result ≡ nat_lt file_limit (bytes * copies) }
{
    match bytes.checked_mul(copies) {
        Some(all) => all > FILE_LIMIT,
        None => true,
    }
}

// The bytes of the `build-depends` that each executable gets.
fn shared_size(alloc: Global, front: &[Element]) -> Result<usize, NoMemory>
    ensures { IfOk result (λ size. size ≡ shared_size front.now) }
{
    let mut shared = List::new(alloc);
    push_fields_of(alloc, FieldKind::Depends, front, &mut shared)?;
    let text = print_elements(alloc, &shared)?;
    Ok(text.as_str().len())
}

fn executables_in(items: &[Element]) -> usize
    ensures { result ≡ executables_in items.now }
{
    items.iter().filter(|item| is_executable(item)).count()
}

/// Whether the executables' copies of `build-depends` alone are more than a file may have.
pub fn is_too_large(alloc: Global, items: &[Element]) -> Result<bool, NoMemory>
    ensures { IfOk result (λ large. large ≡ is_too_large items.now) }
{
    let (front, behind) = items.split_at(front_len(items));
    let bytes = shared_size(alloc, front)?;
    Ok(is_over(bytes, executables_in(behind)))
}

/// Whether a field moves into a section.
fn moves(item: &Element) -> bool
    ensures { result ≡ moves item.now }
{
    match item {
        Element::Field { name, .. } => {
            name.as_str() == "executable" || !is_kind(FieldKind::Package, name.as_str())
        }
        Element::Section { .. } => false,
    }
}

pub fn any_moves(items: &[Element]) -> bool
    ensures { result ≡ list_any moves items.now }
{
    items.iter().any(|item| moves(item))
}
