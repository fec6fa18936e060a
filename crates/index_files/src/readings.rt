// All that is read of a folder, in order: local files, unit records, and the releases of the closure.
ghost use Rattle.std.specs.Prelude.{◌≡◌, IfOk, IfSome, IsErrOf};
ghost use Rattle.outside_folder.specs.Calls.{Leaves};
ghost use Rattle.std.specs.List.{IsDistinct};
ghost use Rattle.index_files.specs.File.{CountsAll};
ghost use Rattle.index_files.specs.Ground.{ground_from};
ghost use Rattle.index_files.specs.InTurn.{OnPart};
ghost use Rattle.plan_types.specs.Refusal.{Answers};
ghost use Rattle.index_files.specs.Readings.{AreIndexed, AreOverGround, AreReadings, AreWellFormed};
ghost use Rattle.index_files.specs.Units.{ReadsUnits, is_record, paths_of_records, record_files, record_paths, unit_ids};
ghost use Rattle.plan_types.specs.Bytes.{same_text};

use crate::closure::{FoundName, read_closure};
use crate::local::Local;
use crate::locals::{Locals, read_locals};
use crate::needed_names::MentionedNames;
use crate::places::record_path;
use crate::read_before::ReadBefore;
use crate::totals::too_many;
use crate::units::{Counted, Units, read_records};
use outside_folder::{Folder, Name, Trouble, list_names};
use plan_types::{Env, Halt, List, Named, NoMemory, Places, Text};
use std::alloc::Global;

/// All that was read of a folder.
#[derive(Debug, Drop)]
pub struct Readings {
    /// In the order of their paths.
    pub locals: List<Local>,
    /// In the order of their paths, including those that need a unit without a record.
    pub units: Units,
    /// The names of the closure, each once.
    pub found: List<FoundName>,
}

/// What is read before the index.
#[derive(Drop)]
struct ReadFirst {
    locals: Locals,
    counted: Counted,
}

/// Reads the local files at these paths, then the unit records, then the releases of the closure. The closure begins
/// with the names of the local packages and the extra packages.
pub fn read_index_files<F: Folder>(
    alloc: Global,
    paths: &List<Text>,
    extra: &List<Named>,
    places: &Places,
    env: &Env,
    folder: &mut F,
) -> Result<Readings, Halt>
    ensures observed { IfSome (F.tells folder.old)
        (λ files. Answers (AreReadings env.now places.now extra.now paths.now files) result) }
    ensures form { IfOk result (AreWellFormed env.now places.now extra.now) }
    ensures folder { Leaves F.tells F.faults folder.old folder.new (IsErrOf result Halt.Failed) }
{
    let locals = read_locals(alloc, paths.as_slice(), env, folder)?;
    let read = read_units(alloc, places, folder)?;
    let first = ReadFirst {
        locals,
        counted: read,
    };
    let readings = read_indexed(alloc, first, extra, places, env, folder)?;
    Ok(readings)
}

fn read_units<F: Folder>(alloc: Global, places: &Places, folder: &mut F) -> Result<Counted, Halt>
    ensures observed { IfSome (F.tells folder.old) (λ files. Answers
        (OnPart (λ counted. counted.units) (ReadsUnits places.now files)) result) }
    ensures counts { IfSome (F.tells folder.old) (λ files. IfOk result
        (λ counted. CountsAll counted.totals (record_files places.now files))) }
    ensures once { IfOk result (λ counted. IsDistinct same_text (unit_ids counted.units)) }
    ensures folder { Leaves F.tells F.faults folder.old folder.new (IsErrOf result Halt.Failed) }
{
    let paths = record_paths(alloc, places, folder)?;
    let counted = read_records(alloc, places, paths.as_slice(), folder)?;
    Ok(counted)
}

fn record_paths<F: Folder>(
    alloc: Global,
    places: &Places,
    folder: &mut F,
) -> Result<List<Text>, Trouble>
    ensures observed { IfSome (F.tells folder.old)
        (λ files. IfOk result (λ paths. paths ≡ paths_of_records places.now files)) }
    ensures folder { Leaves F.tells F.faults folder.old folder.new (IsErrOf result Trouble.Failed) }
{
    let names = list_names(alloc, places.installed.as_str(), folder)?;
    let names = names.unwrap_or(List::new(alloc));
    let paths = paths_among(alloc, places, names.as_slice())?;
    Ok(paths)
}

fn paths_among(alloc: Global, places: &Places, names: &[Name]) -> Result<List<Text>, NoMemory>
    ensures { IfOk result (λ paths. paths ≡ record_paths places.now names.now) }
{
    let mut paths = List::new(alloc);
    for name in names {
        if is_record(name) {
            paths.push(record_path(places, name.text.as_str())?)?;
        }
    }
    Ok(paths)
}

fn is_record(name: &Name) -> bool
    ensures { result ≡ is_record name.now }
{
    !name.folder && name.text.as_bytes().ends_with(b".conf")
}

fn read_indexed<F: Folder>(
    alloc: Global,
    first: ReadFirst,
    extra: &List<Named>,
    places: &Places,
    env: &Env,
    folder: &mut F,
) -> Result<Readings, Halt>
    ensures observed { IfSome (F.tells folder.old) (λ files. Answers
        (AreIndexed (ground_from env.now places.now first.locals first.counted.units extra.now)
        first.counted.totals.files first.counted.totals.bytes files) result) }
    ensures kept { IfOk result (AreOverGround
        (ground_from env.now places.now first.locals first.counted.units extra.now)) }
    ensures folder { Leaves F.tells F.faults folder.old folder.new (IsErrOf result Halt.Failed) }
{
    let ReadFirst { locals, counted } = first;
    let Counted { units, totals } = counted;
    units.are_formed();
    let needed = MentionedNames::of(alloc, &units)?;
    let before = ReadBefore {
        env,
        places,
        locals: &locals,
        units: &units,
        extra,
        needed: &needed,
    };
    let found = read_closure(alloc, &before, totals, folder)?;
    match found {
        None => Err(too_many(alloc, &places.index)?),
        Some(found) => Ok(readings_of(locals, units, found)),
    }
}

fn readings_of(locals: Locals, units: Units, found: List<FoundName>) -> Readings
    ensures { result ≡ record { locals = locals.list; units = units; found = found } }
{
    Readings {
        locals: locals.into_list(),
        units,
        found,
    }
}
