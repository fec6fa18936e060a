// Limits on the records and releases that are read.
ghost use Rattle.std.specs.Prelude.{◌≡◌, ◌+◌, ◌≤◌, not, if◌then◌else◌, IfOk};
ghost use Rattle.plan_types.specs.Refusal.{refusal_at};
ghost use Rattle.index_files.specs.Totals.{is_too_many};

use plan_types::{Cause, Halt, NoMemory, Refusal, Text};
use std::alloc::Global;

/// The most files that are read.
const FILES_LIMIT: usize = 20_000;

/// The most bytes of these files together.
const BYTES_LIMIT: usize = 268_435_456;

/// The number of files read so far, and of their bytes.
#[derive(Debug, Drop)]
pub(crate) struct Totals {
    pub files: usize,
    pub bytes: usize,
    ghost few_files: { files ≤ 20000 },
    ghost few_bytes: { bytes ≤ 268435456 },
}

impl Totals {
    pub fn new() -> Totals
        ensures files { result.files ≡ 0 }
        ensures bytes { result.bytes ≡ 0 }
    {
        Totals { files: 0, bytes: 0 }
    }

    /// Counts these files and bytes, and returns true; false, with nothing counted, if they would be too many.
    pub fn count(&mut self, files: usize, bytes: usize) -> bool
        ensures fits { result ≡ not (is_too_many (self.old.files + files) (self.old.bytes + bytes)) }
        ensures files { self.new.files ≡ (if result then self.old.files + files else self.old.files) }
        ensures bytes { self.new.bytes ≡ (if result then self.old.bytes + bytes else self.old.bytes) }
    {
        if files > FILES_LIMIT - self.files || bytes > BYTES_LIMIT - self.bytes {
            return false;
        }
        self.files += files;
        self.bytes += bytes;
        true
    }
}

/// The refusal of a directory with too many files.
pub(crate) fn too_many(alloc: Global, place: &Text) -> Result<Halt, NoMemory>
    ensures { IfOk result (λ halt. halt ≡ Halt.Refused (refusal_at place.now 0 Cause.TooMany)) }
{
    let path = place.copy()?;
    Ok(Halt::Refused(Refusal::at(alloc, path, 0, Cause::TooMany)))
}
