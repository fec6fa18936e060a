// Places at which instances enter or leave a range.
ghost use Rattle.std.specs.Prelude.{◌≡◌, ◌++◌, ◌∷◌, [], ℕ, List, OnOk, MatchOption, true};
ghost use Rattle.plan_types.specs.Members.{members};
ghost use Rattle.version_range.specs.Version.{has_versions};
ghost use Rattle.solver_index.specs.Before.{IsJoin, is_operator};
ghost use Rattle.solver_index.specs.Blocks.{IsBlock};
ghost use Rattle.solver_index.specs.RangeBounds.{AreBounds};

use crate::blocks::{Test, first_without};
use plan_types::{Entry, List, NoMemory, Range};

/// Appends the places in a block at which instances may enter or leave a range.
pub(crate) fn push_bounds(
    bounds: &mut List<u64>,
    range: &Range,
    entries: &[Entry],
    from: usize,
    to: usize,
) -> Result<(), NoMemory>
    requires block { IsBlock entries.now from to }
    requires versions { has_versions range.now ≡ true }
    ensures { OnOk result (AreBounds (members range.now) entries.now from to bounds.old bounds.new) }
{
    // Chains group from the left, so the right sides come first.
    let mut rest = range;
    while let Some((left, right)) = sides(rest) {
        push_bounds(bounds, right, entries, from, to)?;
        rest = left;
    }
    let (first, last) = operator_places(rest, entries, from, to);
    bounds.push(first as u64)?;
    bounds.push(last as u64)
}

// The places at which instances enter and leave the range of an operator.
fn operator_places(range: &Range, entries: &[Entry], from: usize, to: usize) -> (usize, usize)
    requires block { IsBlock entries.now from to }
    requires versions { has_versions range.now ≡ true }
    requires operator { is_operator range.now ≡ true }
    ensures { (bounds : List ℕ) → AreBounds (members range.now) entries.now from to
        bounds (bounds ++ result.0 ∷ result.1 ∷ []) }
{
    let first = first_without(Test::IsBefore, range, entries, from, to);
    let last = first_without(Test::IsMember, range, entries, first, to);
    (first, last)
}

fn sides(range: &Range) -> Option<(&Range, &Range)>
    ensures { MatchOption result (is_operator range.now ≡ true) (λ p. IsJoin range.now p.0.now p.1.now) }
{
    match range {
        Range::Both(left, right) | Range::Either(left, right) => Some((left.get(), right.get())),
        Range::Any | Range::Nothing | Range::Equal(_) | Range::Prefix(_) => None,
        Range::AtLeast(_) | Range::Above(_) | Range::AtMost(_) | Range::Below(_) => None,
        Range::Major(_) => None,
    }
}
