// Reading a record from its bytes.
ghost use Rattle.std.specs.Prelude.{◌≡◌, ◌≤◌, ◌++◌, [], ◌∷◌, ℕ, List, true, Ok, Err, length, IfOk, IfErr, IfSome, OnOk};
ghost use Rattle.plan_types.specs.declared.refusal.Cause.{Cause};
ghost use Rattle.plan_types.specs.declared.refusal.Cause.TheVariants.{BadRecord};
ghost use Rattle.plan_types.specs.Name.{is_package_name};
ghost use Rattle.plan_types.specs.Refusal.{RefusesAt};
ghost use Rattle.cabal_lexer.specs.Fault.{IsTree, IsFault};
ghost use Rattle.version_range.specs.Version.{is_version};
ghost use Rattle.unit_record.specs.Fields.{Field, Say, fields_of, top_fields};
ghost use Rattle.unit_record.specs.Record.{IsRecord, contents};

use crate::contents::Contents;
use crate::field::said_by;
use cabal_lexer::read_elements;
use plan_types::{Cause, Element, Fault, List, NoMemory, UnitRecord};
use std::alloc::Global;

/// The record in a text; none for a sublibrary. The fault is always `BadRecord`. Its line is 0 if a field is missing.
pub fn read_record(alloc: Global, bytes: &[u8]) -> Result<Option<UnitRecord>, Fault>
    requires { length bytes.now ≤ 1048576 }
    ensures record { IfOk result (λ found. IsRecord bytes.now (Ok found)) }
    ensures fault { IfErr result (RefusesAt
        (λ line cause. (cause ≡ BadRecord) × IsRecord bytes.now (Err line))) }
    ensures name { IfOk result (λ found. IfSome found (λ r. is_package_name r.name ≡ true)) }
    ensures version { IfOk result (λ found. IfSome found (λ r. is_version r.version.parts ≡ true)) }
{
    let items = tree_of(alloc, bytes)?;
    let contents = contents_of(alloc, items.as_slice())?;
    contents.outcome()
}

fn tree_of(alloc: Global, bytes: &[u8]) -> Result<List<Element>, Fault>
    requires { length bytes.now ≤ 1048576 }
    ensures tree { IfOk result (λ items. IsTree bytes.now items) }
    ensures fault { IfErr result (RefusesAt
        (λ line cause. (cause ≡ BadRecord) × (why : Cause) × IsFault bytes.now line why)) }
{
    match read_elements(alloc, bytes) {
        Ok(items) => Ok(items),
        Err(Fault::At { line, cause: _ }) => Err(Fault::At {
            line,
            cause: Cause::BadRecord,
        }),
        Err(Fault::NoMemory) => Err(Fault::NoMemory),
    }
}

// The contents of the fields outside sections.
fn contents_of(alloc: Global, items: &[Element]) -> Result<Contents, NoMemory>
    ensures { IfOk result (λ found. (fields : List Field) × Say (top_fields items.now) fields
        × (found ≡ contents fields)) }
{
    let mut contents = Contents::new(alloc);
    for item in items {
        take_element(alloc, item, &mut contents)?;
    }
    Ok(contents)
}

fn take_element(alloc: Global, item: &Element, all: &mut Contents) -> Result<(), NoMemory>
    ensures { OnOk result ((before : List Field) → all.old ≡ contents before →
        (found : List Field) × Say (fields_of item.now) found × (all.new ≡ contents (before ++ found))) }
{
    match item {
        Element::Field { line, name, values } => {
            let said = said_by(alloc, name, values)?;
            all.take(*line, said)
        }
        Element::Section {
            line: _,
            name: _,
            args: _,
            items: _,
        } => Ok(()),
    }
}
