// A finding is right, and unique.
ghost use Rattle.std.specs.Prelude.{◌≡◌, Bool, true};
ghost use Rattle.std.specs.List.{list_all};
ghost use Rattle.flatten.specs.Sound.{IsSound, has_package};
ghost use Rattle.plan_types.specs.declared.index.Index.{Index};
ghost use Rattle.plan_types.specs.declared.project.Settings.{Settings};
ghost use Rattle.plan_search.specs.Finding.{IsFindingOf};
ghost use Rattle.plan_search.specs.Meaning.{MeansOutcome};
ghost use Rattle.plan_search.specs.declared.search.Finding.{Finding};
ghost use Rattle.plan_search.specs.declared.search.Picking.{Picking};

use cabal_problem::{one_problem, problem_is_lawful, valid_as_whole};
use choice_problem::{ends_right, ends_valid, limit_only_gives_up};

/// By the problem with whole conditions: a found trail is the first complete, valid assignment, or under `MostMet` any
/// one. A conflict set admits none, and there is no complete, valid assignment. Only a limit makes a search give up.
pub fn what_is_found_is_right()
    ensures { (picking : Picking) (minimize : Bool) (index : Index) (settings : Settings) (finding : Finding)
        → IsSound settings.env index → list_all (λ named. has_package index named.name) settings.project.extra ≡ true
        → IsFindingOf picking minimize index settings finding
        → MeansOutcome picking index settings finding.names finding.outcome }
{
    ends_right();
    ends_valid();
    limit_only_gives_up();
    valid_as_whole();
    problem_is_lawful();
}

/// The finding of an index and settings is unique, with its table of names.
pub fn one_finding()
    ensures { (picking : Picking) (minimize : Bool) (index : Index) (settings : Settings) (a b : Finding)
        → IsFindingOf picking minimize index settings a → IsFindingOf picking minimize index settings b → a ≡ b }
{
    one_problem();
}
