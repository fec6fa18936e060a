// Every index has a finding. Without a limit it is a first plan or a conflict.
ghost use Rattle.std.specs.Prelude.{◌≡◌, Bool, true};
ghost use Rattle.std.specs.List.{list_all};
ghost use Rattle.plan_types.specs.declared.index.Index.{Index};
ghost use Rattle.plan_types.specs.declared.project.Settings.{Settings};
ghost use Rattle.flatten.specs.Sound.{IsSound, has_package};
ghost use Rattle.qualified_goals.specs.Names.{AreInGoalOrder};
ghost use Rattle.plan_search.specs.Finding.{IsFindingOf};
ghost use Rattle.plan_search.specs.declared.search.Finding.{Finding};
ghost use Rattle.plan_search.specs.declared.search.Picking.{Picking};
ghost use Rattle.every_plan.specs.Ends.{EndsUnlimited};

use plan_search::what_is_found_is_right;

/// An index in goal order has a finding.
pub fn some_finding()
    ensures { (picking : Picking) (minimize : Bool) (index : Index) (settings : Settings)
        → AreInGoalOrder index.packages
        → (finding : Finding) × IsFindingOf picking minimize index settings finding }
{}

/// Without a limit, the search over a sound index with each extra package finds the trail of the first complete, valid
/// assignment. If there is none, it finds a conflict set that admits none.
pub fn first_or_none()
    ensures { (index : Index) (settings : Settings) → IsSound settings.env index
        → list_all (λ named. has_package index named.name) settings.project.extra ≡ true
        → EndsUnlimited index settings }
{
    what_is_found_is_right();
}
