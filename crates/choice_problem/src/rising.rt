// The place of a variable in a list in goal order with each variable once.
ghost use Rattle.std.specs.Prelude.{◌≡◌, IsTrue};
ghost use Rattle.choice_problem.specs.ConflictSet.{is_rising, has, place_of};

use crate::{Var, is_before, is_same};

/// The first place whose variable isn't before this one, by binary search.
pub(crate) fn place_of(vars: &[Var], v: Var) -> usize
    requires { IsTrue (is_rising vars.now) }
    ensures { result ≡ place_of v vars.now }
{
    vars.partition_point(|w| is_before(*w, v))
}

/// Whether the list has the variable at its place.
pub(crate) fn stands_at(vars: &[Var], place: usize, v: Var) -> bool
    requires rising { IsTrue (is_rising vars.now) }
    requires place { place ≡ place_of v vars.now }
    ensures { result ≡ has vars.now v }
{
    match vars.get(place) {
        Some(w) => is_same(*w, v),
        None => false,
    }
}
