// Scopes with their packages as numbers.
ghost use Rattle.std.specs.Prelude.{◌≡◌};
ghost use Rattle.constraint_set.specs.NumberedScope.{numbered_covers, numbered};

use plan_types::Scope;
use qualified_goals::{Names, Qual};

/// A scope with its package as a number.
#[derive(Clone, Copy, Debug, Drop)]
pub(crate) enum NumberedScope {
    Top,
    Everywhere,
    Setups,
    SetupOf(u64),
    /// The setup of a package that isn't in the index.
    Nowhere,
}

impl NumberedScope {
    pub(crate) fn of(names: &Names, scope: &Scope) -> NumberedScope
        ensures { result ≡ numbered names.now scope.now }
    {
        match scope {
            Scope::Top => NumberedScope::Top,
            Scope::Any => NumberedScope::Everywhere,
            Scope::Setup => NumberedScope::Setups,
            Scope::SetupOf(owner) => match names.package(owner) {
                Some(number) => NumberedScope::SetupOf(number),
                None => NumberedScope::Nowhere,
            },
        }
    }

    pub(crate) fn covers(self, qual: Qual) -> bool
        ensures { result ≡ numbered_covers self qual }
    {
        match (self, qual) {
            (NumberedScope::Everywhere, _) => true,
            (NumberedScope::Top, Qual::Top) => true,
            (NumberedScope::Setups, Qual::Setup(_)) => true,
            (NumberedScope::SetupOf(owner), Qual::Setup(package)) => owner == package,
            _ => false,
        }
    }
}
