// Laws of the definitions, for every lawful problem.
ghost use Rattle.std.specs.Prelude.{◌≡◌, ◌≢◌, ◌≤◌, ℕ};
ghost use Rattle.plan_types.specs.declared.limit.Limit.{Limit};
ghost use Rattle.choice_problem.specs.Problem.{Problem, Lawful};
ghost use Rattle.choice_problem.specs.Assignment.{Assignment};
ghost use Rattle.choice_problem.specs.General.{General, LawfulGeneral, general};
ghost use Rattle.choice_problem.specs.Trail.{trail_of};
ghost use Rattle.choice_problem.specs.Valid.{IsFirst};
ghost use Rattle.choice_problem.specs.Joined.{AreYesTogether, AreOne};
ghost use Rattle.choice_problem.specs.Guide.{Guide, IsGuide};
ghost use Rattle.choice_problem.specs.Answer.{GaveUp, guided_answer, answer_of, plain_count};
ghost use Rattle.choice_problem.specs.Sound.{ConflictsAreSound, FailuresAreSound, AnyOrderNamesAlike};
ghost use Rattle.choice_problem.specs.Sound.{IsRightEnd, IsValidEnd};

/// The set of a conflict admits none, whatever the order in which the choices before it were made.
pub fn conflicts_are_sound()
    ensures { (p : Problem) → Lawful p → ConflictsAreSound p }
{}

/// The set with which a search fails admits none, after any choices, with any limit and any guide.
pub fn failures_are_sound()
    ensures { (p : Problem) → Lawful p → FailuresAreSound p }
{}

/// A search without a limit finds the trail of the first complete, valid assignment. It fails iff there is none.
pub fn ends_right()
    ensures { (p : Problem) → Lawful p → IsRightEnd p (answer_of p Limit.Unlimited).ended }
{}

/// With any guide, a search without a limit finds a trail that is a complete, valid assignment. It fails iff
/// there is none.
pub fn ends_valid()
    ensures { (p : Problem) (guide : Guide) → Lawful p → IsGuide guide
        → IsValidEnd p (guided_answer guide p Limit.Unlimited).ended }
{}

/// Choices of open variables, in any order until none is open, have the variables of the trail of the assignment that
/// they make.
pub fn any_order_names_alike()
    ensures { (p : Problem) → Lawful p → AnyOrderNamesAlike p }
{}

/// With any guide, an answer with a limit is the one without, unless the limit was reached.
pub fn limit_only_gives_up()
    ensures { (guide : Guide) (p : Problem) (limit : Limit) → (guided_answer guide p limit).ended ≢ GaveUp
        → guided_answer guide p limit ≡ guided_answer guide p Limit.Unlimited }
{}

/// A search, with or without a limit, tries at most as many values as one without backjumps.
pub fn plain_count_is_most()
    ensures { (p : Problem) (limit : Limit) → Lawful p → (answer_of p limit).past.counts.visited ≤ plain_count p }
{}

/// Problems whose demands are Yes together have the same valid assignments, trails and first assignment.
pub fn valid_alike()
    ensures { (g h : General) → LawfulGeneral g → LawfulGeneral h → AreYesTogether g h → AreOne g h }
{}

/// A lawful problem is lawful as a general one.
pub fn general_is_lawful()
    ensures { (p : Problem) → Lawful p → LawfulGeneral (general p) }
{}

/// The first trail is unique: any two first assignments have the same trail.
pub fn one_first()
    ensures { (g : General) (A B : Assignment) → LawfulGeneral g → IsFirst g A → IsFirst g B
        → trail_of g A ≡ trail_of g B }
{}
