// Laws of the text of constraints.
ghost use Rattle.std.specs.Prelude.{◌≡◌, ℕ, false, List, ◌∷◌, ◌++◌, Ok};
ghost use Rattle.std.specs.List.{AllByRecursion};
ghost use Rattle.plan_types.specs.declared.condition.Env.{Env};
ghost use Rattle.plan_types.specs.declared.constraint.Constraint.{Constraint};
ghost use Rattle.plan_types.specs.declared.project.Project.{Project};
ghost use Rattle.cabal_lexer.specs.RoundTrip.{ends_with_return};
ghost use Rattle.project_file.specs.Read.{IsProject};
ghost use Rattle.project_file.specs.declared.read.ProjectText.{ProjectText};
ghost use Rattle.freeze_text.specs.Reads.{Adds, IsPlainConstraint, IsReadAs, text_at};
ghost use Rattle.freeze_text.specs.Text.{freeze_text, refrozen_text};

/// The text of plain constraints, as a project file, is read as exactly these constraints.
pub fn text_reads_back()
    ensures { (constraints : List Constraint) → AllByRecursion IsPlainConstraint constraints
        → IsReadAs (freeze_text constraints) constraints }
{}

/// Among project files, it adds these constraints and changes nothing else: as a file of its own, or after the text
/// of a file. The last line of that text may not end in a lone carriage return, which would become part of the line
/// end.
pub fn text_adds_constraints()
    ensures alone { (env : Env) (front behind : List ProjectText) (path : List ℕ) (constraints : List Constraint)
        (project : Project)
        → AllByRecursion IsPlainConstraint constraints → IsProject env (front ++ behind) (Ok project)
        → Adds env (front ++ text_at path (freeze_text constraints) ∷ behind) project constraints }
    ensures behind { (env : Env) (front behind : List ProjectText) (path before : List ℕ)
        (constraints : List Constraint) (project : Project)
        → AllByRecursion IsPlainConstraint constraints → ends_with_return before ≡ false
        → IsProject env (front ++ text_at path before ∷ behind) (Ok project)
        → Adds env (front ++ text_at path (refrozen_text before constraints) ∷ behind) project constraints }
{}
