// Versions, and their order.
ghost use Rattle.std.specs.Prelude.{◌≡◌, ◌<◌, [], ◌∷◌, length, IfOk};
ghost use Rattle.std.specs.Ordering.{nat_cmp};
ghost use Rattle.std.specs.Cmp.Lexicographic.{slice_cmp};

use crate::{List, NoMemory};
use std::alloc::Global;
use std::cmp::Ordering;

/// A version: its numbers, the most significant first.
#[derive(Debug, PartialEq, Eq, Drop)]
pub struct Version {
    pub parts: List<u32>,
}

impl Version {
    /// The order of lists of numbers, in which `1.0` is below `1.0.0`.
    pub fn compare(&self, other: &Version) -> Ordering
        ensures { result ≡ slice_cmp nat_cmp self.now.parts other.now.parts }
    {
        self.parts.as_slice().cmp(other.parts.as_slice())
    }

    /// Sets the version to `0`, the least one.
    pub fn make_least(&mut self)
        requires { 0 < length self.old.parts }
        ensures { self.new.parts ≡ 0 ∷ [] }
    {
        self.parts.truncate(1);
        self.parts.set(0, 0);
    }

    pub fn copy(&self, alloc: Global) -> Result<Version, NoMemory>
        ensures { IfOk result (λ copied. copied ≡ self.now) }
    {
        let parts = self.parts.as_slice().to_vec(alloc)?;
        Ok(Version {
            parts: List::from_vec(parts),
        })
    }
}
