// A field of a record, and its value.
ghost use Rattle.std.specs.Prelude.{◌≡◌, IfOk};
ghost use Rattle.plan_types.specs.Bytes.{joined_text};
ghost use Rattle.unit_record.specs.Fields.{FieldSays, field_word, unit_id};

use crate::words::is_unit_id;
use plan_types::{List, NoMemory, Text, Version, joined_text};
use std::alloc::Global;
use text_grammar::{Between, package_name, words};
use version_range::version_of;

/// The fields of a record, by name.
#[derive(Clone, Copy, Debug, PartialEq, Eq)]
pub enum RecordFieldWord {
    Name,
    Version,
    Id,
    Depends,
    LibName,
    Unread,
}

/// The value of a field.
#[derive(Debug, Drop)]
pub enum RecordSaid {
    /// None if the value isn't well-formed. The same for the next two.
    Name(Option<Text>),
    Version(Option<Version>),
    Id(Option<Text>),
    Depends(List<Text>),
    /// The unit is a sublibrary.
    LibName,
    Unread,
}

fn field_word(name: &str) -> RecordFieldWord
    ensures { result ≡ field_word name.now }
{
    match name {
        "name" => RecordFieldWord::Name,
        "version" => RecordFieldWord::Version,
        "id" => RecordFieldWord::Id,
        "depends" => RecordFieldWord::Depends,
        "lib-name" => RecordFieldWord::LibName,
        _ => RecordFieldWord::Unread,
    }
}

/// The content of a field with this name and these values.
pub fn said_by(alloc: Global, name: &Text, values: &List<Text>) -> Result<RecordSaid, NoMemory>
    ensures { IfOk result (FieldSays (field_word name.now) (joined_text values.now)) }
{
    said_as(alloc, field_word(name.as_str()), values)
}

// An unread field isn't joined.
fn said_as(
    alloc: Global,
    word: RecordFieldWord,
    values: &List<Text>,
) -> Result<RecordSaid, NoMemory>
    ensures { IfOk result (FieldSays word (joined_text values.now)) }
{
    match word {
        RecordFieldWord::Name => {
            let text = joined_text(alloc, values.as_slice())?;
            Ok(RecordSaid::Name(package_name(text)))
        }
        RecordFieldWord::Version => {
            let text = joined_text(alloc, values.as_slice())?;
            let version = version_of(alloc, text.as_bytes())?;
            Ok(RecordSaid::Version(version))
        }
        RecordFieldWord::Id => {
            let text = joined_text(alloc, values.as_slice())?;
            Ok(RecordSaid::Id(unit_id(text)))
        }
        RecordFieldWord::Depends => {
            let text = joined_text(alloc, values.as_slice())?;
            let ids = words(alloc, Between::BlanksAndCommas, text.as_str())?;
            Ok(RecordSaid::Depends(ids))
        }
        RecordFieldWord::LibName => Ok(RecordSaid::LibName),
        RecordFieldWord::Unread => Ok(RecordSaid::Unread),
    }
}

fn unit_id(text: Text) -> Option<Text>
    ensures { result ≡ unit_id text }
{
    if is_unit_id(text.as_bytes()) {
        Some(text)
    } else {
        None
    }
}
