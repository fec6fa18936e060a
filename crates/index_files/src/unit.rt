// An installed unit.
ghost use Rattle.std.specs.Prelude.{◌≡◌, IfOk};

use plan_types::{NoMemory, Text, UnitRecord, drop_fields};

/// An installed unit with the path of its record.
#[derive(Debug)]
pub struct Unit {
    pub path: Text,
    pub record_of: UnitRecord,
}

impl Drop for Unit {
    fn drop(self) {
        drop_fields!(self; path, record_of);
    }
}

impl Unit {
    /// A record with a copy of the path.
    pub(crate) fn at(path: &Text, record_of: UnitRecord) -> Result<Unit, NoMemory>
        ensures { IfOk result (λ unit. unit ≡ record { path = path.now; record_of = record_of }) }
    {
        let path = path.copy()?;
        Ok(Unit { path, record_of })
    }

    /// The path of its record.
    pub(crate) fn into_path(self) -> Text
        ensures { result ≡ self.path }
    {
        let Unit {
            path,
            record_of: _record_of,
        } = self;
        path
    }

    /// Its record.
    pub fn into_record(self) -> UnitRecord
        ensures { result ≡ self.record_of }
    {
        let Unit {
            path: _path,
            record_of,
        } = self;
        record_of
    }
}
