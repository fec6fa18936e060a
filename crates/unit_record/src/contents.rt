// The contents of a record, from all its fields.
ghost use Rattle.std.specs.Prelude.{◌≡◌, [], Some, Ok, Err, OnOk, MatchResult};
ghost use Rattle.std.specs.Option.{option_or};
ghost use Rattle.plan_types.specs.declared.refusal.Cause.TheVariants.{BadRecord};
ghost use Rattle.plan_types.specs.declared.refusal.Fault.TheVariants.{At};
ghost use Rattle.plan_types.specs.Refusal.{RefusesAt};
ghost use Rattle.unit_record.specs.Record.{Adds, contents, outcome};

use crate::field::RecordSaid;
use plan_types::{Cause, Fault, List, NoMemory, Text, UnitRecord, Version, drop_fields};
use std::alloc::Global;

/// The contents of a record, from its fields so far.
#[derive(Debug)]
pub struct Contents {
    /// The unit is a sublibrary.
    pub left_out: bool,
    /// The line of the first field with a bad value.
    pub bad: Option<u32>,
    pub name: Option<Text>,
    pub version: Option<Version>,
    pub id: Option<Text>,
    pub depends: List<Text>,
}

impl Drop for Contents {
    fn drop(self) {
        drop_fields!(self; left_out, bad, name, version, id, depends);
    }
}

impl Contents {
    /// The contents of no fields.
    pub fn new(alloc: Global) -> Contents
        ensures { result ≡ contents [] }
    {
        Contents {
            left_out: false,
            bad: None,
            name: None,
            version: None,
            id: None,
            depends: List::new(alloc),
        }
    }

    /// Adds a field.
    pub fn take(&mut self, line: u32, said: RecordSaid) -> Result<(), NoMemory>
        ensures { OnOk result (Adds line said self.old self.new) }
    {
        match said {
            RecordSaid::Name(Some(name)) => self.name = Some(name),
            RecordSaid::Name(None) => self.bad_at(line),
            RecordSaid::Version(Some(version)) => self.version = Some(version),
            RecordSaid::Version(None) => self.bad_at(line),
            RecordSaid::Id(Some(id)) => self.id = Some(id),
            RecordSaid::Id(None) => self.bad_at(line),
            RecordSaid::Depends(mut ids) => self.depends.append(&mut ids)?,
            RecordSaid::LibName => self.left_out = true,
            RecordSaid::Unread => {}
        }
        Ok(())
    }

    // The first of several bad values counts.
    fn bad_at(&mut self, line: u32)
        ensures { self.new ≡ record self.old { bad = option_or self.old.bad (Some line) } }
    {
        if self.bad.is_none() {
            self.bad = Some(line);
        }
    }

    /// The record of these contents; none for a sublibrary.
    pub fn outcome(self) -> Result<Option<UnitRecord>, Fault>
        ensures { MatchResult result (λ found. outcome self ≡ Ok found)
            (RefusesAt (λ line cause. (cause ≡ BadRecord) × (outcome self ≡ Err line))) }
    {
        if self.left_out {
            return Ok(None);
        }
        if let Some(line) = self.bad {
            return Err(bad_record(line));
        }
        let Contents {
            left_out: _,
            bad: _,
            name,
            version,
            id,
            depends,
        } = self;
        let Some(name) = name else {
            return Err(bad_record(0));
        };
        let Some(version) = version else {
            return Err(bad_record(0));
        };
        let Some(id) = id else {
            return Err(bad_record(0));
        };
        Ok(Some(UnitRecord {
            name,
            version,
            id,
            depends,
        }))
    }
}

fn bad_record(line: u32) -> Fault
    ensures { result ≡ At line BadRecord }
{
    Fault::At {
        line,
        cause: Cause::BadRecord,
    }
}
