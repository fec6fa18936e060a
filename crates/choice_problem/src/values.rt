// The values that choices give.
ghost use Rattle.std.specs.Prelude.{◌≡◌, ◌++◌, ◌∷◌, [], None, filter, option_to_list};
ghost use Rattle.choice_problem.specs.Trail.{value_in};
ghost use Rattle.choice_problem.specs.Twins.{is_of_package};

use crate::{Choice, Trail, Var, is_same};
use std::marker::Model;

/// The choices of a trail, followed by at most one more.
#[derive(Drop)]
pub struct Values<'a> {
    trail: &'a Trail,
    last: Option<Choice>,
}

impl<'a> Model for Values<'a> {
    ghost use Rattle.std.specs.Prelude.{◌≡◌, ◌++◌, List, None, IfSome, option_to_list};
    ghost use Rattle.choice_problem.specs.declared.problem.Choice.{Choice};
    ghost use Rattle.choice_problem.specs.Trail.{value_in};

    ghost Value = { List Choice };

    ghost view = { λ s. s.trail.now ++ option_to_list s.last };

    ghost invariant = { λ s. IfSome s.last (λ c. value_in s.trail.now c.var ≡ None) };
}

impl<'a> Values<'a> {
    pub fn of(trail: &'a Trail) -> Values<'a>
        ensures { result ≡ trail.now }
    {
        Values { trail, last: None }
    }

    /// The trail's choices, followed by a choice of a variable that has no value yet.
    pub fn with(trail: &'a Trail, c: Choice) -> Values<'a>
        requires { value_in trail.now c.var ≡ None }
        ensures { result ≡ trail.now ++ c ∷ [] }
    {
        Values {
            trail,
            last: Some(c),
        }
    }

    /// The value of a variable.
    pub fn value_of(&self, v: Var) -> Option<u64>
        ensures { result ≡ value_in self.now v }
    {
        let Some(c) = self.last else {
            return self.trail.value_of(v);
        };
        if is_same(c.var, v) {
            return Some(c.val);
        }
        self.trail.value_of(v)
    }

    /// The trail's choices of a package's instances, and the choice behind the trail.
    pub fn instances_of(&self, package: u64) -> (&[Choice], Option<Choice>)
        ensures { filter (is_of_package «package») self.now
            ≡ result.0.now ++ filter (is_of_package «package») (option_to_list result.1) }
    {
        (self.trail.instances_of(package), self.last)
    }
}
