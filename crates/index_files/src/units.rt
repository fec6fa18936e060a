// The installed units, each record judged before the next is read. Their ids are distinct.
ghost use Rattle.std.specs.Prelude.{◌≡◌, ◌≤◌, ◌++◌, ◌∷◌, [], ℕ, List, true, length, map, Some, None, IfOk, IfErr, IfSome, IsErrOf};
ghost use Rattle.std.specs.List.{IsDistinct, list_all};
ghost use Rattle.std.specs.declared.result.Result.TheVariants.{Ok, Err};
ghost use Rattle.plan_types.specs.Bytes.{same_text};
ghost use Rattle.plan_types.specs.Refusal.{Answers, RefusesAt, Settles};
ghost use Rattle.description.specs.FaultOrder.{is_at};
ghost use Rattle.outside_folder.specs.Calls.{IsWithin, Leaves};
ghost use Rattle.index_files.specs.File.{CountsAll, HasContentWithinLimit, file_found};
ghost use Rattle.index_files.specs.InTurn.{OnPart, Steps};
ghost use Rattle.index_files.specs.Sources.{bytes_in};
ghost use Rattle.index_files.specs.Units.{AreUnitsOf, OfRecord, RecordComes, TakesFound, TakesUnit, is_well_formed, place_of, unit_id, unit_ids, with_found, with_record, with_unit};

use crate::file::{ReadFile, read_file, repeated};
use crate::file_source::bytes_of;
use crate::totals::{Totals, too_many};
use crate::unit::Unit;
use indexmap::IndexSet;
use outside_folder::{Content, Folder};
use plan_types::{Cause, Fault, Halt, List, NoMemory, Places, Text, UnitRecord, drop_fields};
use std::alloc::Global;
use std::marker::Model;
use unit_record::read_record;

/// Installed units of distinct ids, with a table of these ids.
#[derive(Debug)]
pub struct Units {
    list: List<Unit>,
    ids: IndexSet<Text>,
}

impl Drop for Units {
    fn drop(self) {
        drop_fields!(self; list, ids);
    }
}

impl Model for Units {
    ghost use Rattle.std.specs.Prelude.{◌≡◌, List, true};
    ghost use Rattle.std.specs.List.{list_all};
    ghost use Rattle.index_files.specs.Units.{is_well_formed, unit_ids};
    ghost use Rattle.index_files.specs.declared.unit.Unit.{Unit};

    ghost Value = { List Unit };

    ghost view = { λ u. u.list };

    ghost invariant = { λ u. (u.ids.keys ≡ unit_ids u.list) × (list_all is_well_formed u.list ≡ true) };
}

/// Units, and the totals of their records.
#[derive(Debug, Drop)]
pub(crate) struct Counted {
    pub units: Units,
    pub totals: Totals,
}

/// Reads the records at these paths, up to the first refusal or the first record too many.
pub(crate) fn read_records<F: Folder>(
    alloc: Global,
    places: &Places,
    paths: &[Text],
    folder: &mut F,
) -> Result<Counted, Halt>
    ensures observed { IfSome (F.tells folder.old) (λ files. Answers
        (OnPart (λ counted. counted.units)
        (AreUnitsOf places.now (map (file_found true files) paths.now))) result) }
    ensures counts { IfSome (F.tells folder.old) (λ files. IfOk result
        (λ counted. CountsAll counted.totals (map (file_found true files) paths.now))) }
    ensures once { IfOk result (λ counted. IsDistinct same_text (unit_ids counted.units)) }
    ensures folder { Leaves F.tells F.faults folder.old folder.new (IsErrOf result Halt.Failed) }
{
    let mut units = Units::new(alloc);
    let mut totals = Totals::new();
    for path in paths {
        let file = read_file(alloc, path, true, folder)?;
        if !totals.count(file.count(), file.size()) {
            return Err(too_many(alloc, &places.installed)?);
        }
        units = units.with_file(alloc, &file)?;
    }
    Ok(Counted { units, totals })
}

impl Units {
    fn new(alloc: Global) -> Units
        ensures { result ≡ [] }
    {
        Units {
            list: List::new(alloc),
            ids: IndexSet::new(alloc),
        }
    }

    pub(crate) fn as_slice(&self) -> &[Unit]
        ensures { result.now ≡ self.now }
    {
        self.list.as_slice()
    }

    /// The place of the unit of an id.
    pub(crate) fn place_of(&self, id: &Text) -> Option<usize>
        ensures { result ≡ place_of self.now id.now }
    {
        self.ids.get_index_of(id)
    }

    /// Their names and versions are well-formed. The body reads a field, since that gives the invariant.
    pub(crate) fn are_formed(&self)
        ensures { list_all is_well_formed self.now ≡ true }
    {
        let _list = &self.list;
    }

    /// The units, and the table of their ids.
    pub fn into_parts(self) -> (List<Unit>, IndexSet<Text>)
        ensures units { result.0 ≡ self }
        ensures ids { result.1.keys ≡ unit_ids self }
    {
        let Units { list, ids } = self;
        (list, ids)
    }

    fn with_file(self, alloc: Global, file: &ReadFile) -> Result<Units, Halt>
        requires { HasContentWithinLimit file.now }
        ensures { Settles (Steps RecordComes with_record self file.now) result }
    {
        match record_in(alloc, &file.content) {
            Ok(found) => self.with_found(&file.path, found),
            Err(Fault::NoMemory) => Err(Halt::NoMemory),
            Err(Fault::At { line, cause }) => Err(file.refused(alloc, line, cause)?),
        }
    }

    fn with_found(self, path: &Text, found: Option<UnitRecord>) -> Result<Units, Halt>
        requires { IfSome found (λ r. (path : List ℕ) → is_well_formed (record { path = path; record_of = r }) ≡ true) }
        ensures { Settles (TakesFound self path.now found) result }
    {
        match found {
            None => Ok(self),
            Some(record_of) => self.with_record(path, record_of),
        }
    }

    fn with_record(self, path: &Text, record_of: UnitRecord) -> Result<Units, Halt>
        requires { is_well_formed (record { path = path.now; record_of = record_of }) ≡ true }
        ensures { Settles (TakesUnit self path.now record_of) result }
    {
        let unit = Unit::at(path, record_of)?;
        match self.ids.get_index_of(&unit.record_of.id) {
            None => Ok(self.with(unit)?),
            Some(place) => {
                let first = &self.list.as_slice()[place].path;
                Err(repeated(unit.into_path(), Cause::DuplicateUnit, first)?)
            }
        }
    }

    fn with(self, unit: Unit) -> Result<Units, NoMemory>
        requires new { place_of self (unit_id unit) ≡ None }
        requires formed { is_well_formed unit ≡ true }
        ensures { IfOk result (λ units. units ≡ self ++ unit ∷ []) }
    {
        let Units { mut list, mut ids } = self;
        let id = unit.record_of.id.copy()?;
        list.push(unit)?;
        ids.insert(id)?;
        Ok(Units { list, ids })
    }
}

fn record_in(alloc: Global, content: &Content) -> Result<Option<UnitRecord>, Fault>
    requires { IsWithin content.now }
    ensures found { IfOk result (λ found. OfRecord (bytes_in content.now) (Ok found)) }
    ensures fault { IfErr result (RefusesAt (λ line cause. OfRecord (bytes_in content.now) (Err (is_at line cause)))) }
    ensures formed { IfOk result (λ found. IfSome found
        (λ r. (path : List ℕ) → is_well_formed (record { path = path; record_of = r }) ≡ true)) }
{
    let bytes = bytes_of(content)?;
    record_of(alloc, bytes)
}

fn record_of(alloc: Global, bytes: &[u8]) -> Result<Option<UnitRecord>, Fault>
    requires { length bytes.now ≤ 1048576 }
    ensures found { IfOk result (λ found. OfRecord (Some bytes.now) (Ok found)) }
    ensures fault { IfErr result (RefusesAt (λ line cause. OfRecord (Some bytes.now) (Err (is_at line cause)))) }
    ensures formed { IfOk result (λ found. IfSome found
        (λ r. (path : List ℕ) → is_well_formed (record { path = path; record_of = r }) ≡ true)) }
{
    read_record(alloc, bytes)
}
