// Laws of restricted problems.
ghost use Rattle.std.specs.Prelude.{◌≡◌, IsTrue, List};
ghost use Rattle.plan_types.specs.declared.limit.Limit.{Limit};
ghost use Rattle.qualified_goals.specs.declared.variable.Var.{Var};
ghost use Rattle.choice_problem.specs.declared.outcome.Counts.{Counts};
ghost use Rattle.choice_problem.specs.declared.outcome.Outcome.{Outcome};
ghost use Rattle.choice_problem.specs.Problem.{Problem, Lawful};
ghost use Rattle.choice_problem.specs.Guide.{Guide, IsGuide};
ghost use Rattle.choice_problem.specs.Answer.{guided_answer, outcome_of};
ghost use Rattle.conflict_shrink.specs.Restricted.{are_known, AdmitsByRestricted, CanBeShrunk};

/// A set of known variables admits none iff the problem restricted to it has no complete, valid assignment.
pub fn admits_none_as_restricted()
    ensures { (p : Problem) (set : List Var) → Lawful p → IsTrue (are_known p set) → AdmitsByRestricted p set }
{}

/// The set with which a search fails can be shrunk: it admits none, and its variables are known.
pub fn failed_sets_can_be_shrunk()
    ensures { (p : Problem) (guide : Guide) (limit : Limit) (set : List Var) (counts : Counts)
        → Lawful p → IsGuide guide
        → outcome_of (guided_answer guide p limit) ≡ Outcome.NoPlan set counts → CanBeShrunk p set }
{}
