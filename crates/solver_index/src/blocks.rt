// Binary search for the place at which a test begins to fail.
ghost use Rattle.std.specs.Prelude.{◌≡◌, ℕ, ◌<◌, ◌≤◌, true, false, not, length};
ghost use Rattle.solver_index.specs.Before.{before};
ghost use Rattle.solver_index.specs.Blocks.{IsPrefixClosed, passes};
ghost use Rattle.solver_index.specs.Places.{entry_at};
ghost use Rattle.plan_types.specs.Packages.{is_installed};

use plan_types::{Body, Entry, Range, Version};

/// A test of an instance.
#[derive(Clone, Copy, Debug, Drop)]
pub(crate) enum Test {
    IsSource,
    /// The version lies below the first member of an operator.
    IsBefore,
    IsMember,
}

/// The first place whose instance fails the test, where those that pass come first; `to` if all pass.
pub(crate) fn first_without(
    test: Test,
    range: &Range,
    entries: &[Entry],
    from: usize,
    to: usize,
) -> usize
    requires low { from ≤ to }
    requires high { to ≤ length entries.now }
    requires falls { IsPrefixClosed (passes test range.now) entries.now from to }
    ensures low { from ≤ result }
    ensures high { result ≤ to }
    ensures front { (k : ℕ) → from ≤ k → k < result → passes test range.now (entry_at entries.now k) ≡ true }
    ensures rest { (k : ℕ) → result ≤ k → k < to → passes test range.now (entry_at entries.now k) ≡ false }
{
    let mut low = from;
    let mut high = to;
    while low < high {
        let middle = low + (high - low) / 2;
        if passes(test, range, &entries[middle]) {
            low = middle + 1;
        } else {
            high = middle;
        }
    }
    low
}

fn passes(test: Test, range: &Range, entry: &Entry) -> bool
    ensures { result ≡ passes test range.now entry.now }
{
    match test {
        Test::IsSource => is_source(&entry.body),
        Test::IsBefore => before(range, &entry.instance.version),
        Test::IsMember => range.has(&entry.instance.version),
    }
}

fn is_source(body: &Body) -> bool
    ensures { result ≡ not (is_installed body.now) }
{
    match body {
        Body::Source(_) => true,
        Body::Installed { .. } => false,
    }
}

// Whether a version lies below the first member of an operator.
fn before(range: &Range, version: &Version) -> bool
    ensures { result ≡ before range.now version.now }
{
    match range {
        Range::Any => false,
        Range::Nothing => false,
        Range::Equal(x) => version.compare(x).is_lt(),
        Range::Prefix(x) => version.compare(x).is_lt(),
        Range::AtLeast(x) => version.compare(x).is_lt(),
        Range::Above(x) => version.compare(x).is_le(),
        Range::AtMost(_) => false,
        Range::Below(_) => false,
        Range::Major(x) => version.compare(x).is_lt(),
        Range::Both(_, _) => false,
        Range::Either(_, _) => false,
    }
}
