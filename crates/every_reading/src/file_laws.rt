// Every file has an outcome.
ghost use Rattle.std.specs.Prelude.{◌⊎◌, ℕ, List, Option, Result};
ghost use Rattle.plan_types.specs.declared.condition.Env.{Env};
ghost use Rattle.plan_types.specs.declared.description.Description.{Description};
ghost use Rattle.plan_types.specs.declared.element.Element.{Element};
ghost use Rattle.plan_types.specs.declared.index.UnitRecord.{UnitRecord};
ghost use Rattle.plan_types.specs.declared.project.Project.{Project};
ghost use Rattle.plan_types.specs.declared.range.Spec.{Spec};
ghost use Rattle.plan_types.specs.declared.refusal.Cause.{Cause};
ghost use Rattle.plan_types.specs.declared.refusal.Refusal.{Refusal};
ghost use Rattle.cabal_lexer.specs.Fault.{IsTree, IsFault};
ghost use Rattle.unit_record.specs.Record.{IsRecord};
ghost use Rattle.section_syntax.specs.declared.part.File.{File};
ghost use Rattle.section_syntax.specs.File.{IsFile};
ghost use Rattle.description.specs.declared.fault_order.At.{At};
ghost use Rattle.description.specs.Description.{Describes};
ghost use Rattle.plan_types.specs.declared.index.Source.{Source};
ghost use Rattle.cabal_file.specs.Source.{IsSource};
ghost use Rattle.project_file.specs.declared.read.ProjectText.{ProjectText};
ghost use Rattle.project_file.specs.Read.{IsProject};

/// Bytes have a tree or a first fault.
pub fn some_tree()
    ensures { (bytes : List ℕ) → ((items : List Element) × IsTree bytes items)
        ⊎ ((line : ℕ) × (cause : Cause) × IsFault bytes line cause) }
{}

/// The bytes of a record have an outcome: a unit, none, or the line of a fault.
pub fn some_record()
    ensures { (bytes : List ℕ) → (found : Result (Option UnitRecord) ℕ) × IsRecord bytes found }
{}

/// The elements of a file have a reading in each cabal-version.
pub fn some_file()
    ensures { (spec : Spec) (items : List Element) → (file : File) × IsFile spec items file }
{}

/// The elements of a file have a description or a first fault.
pub fn some_description()
    ensures { (items : List Element) (digest : List ℕ)
        → (outcome : Result Description At) × Describes items digest outcome }
{}

/// The bytes of a `.cabal` file have a source or a first fault.
pub fn some_source()
    ensures { (env : Env) (bytes : List ℕ) → (outcome : Result Source At) × IsSource env bytes outcome }
{}

/// Project files have a project or a first refusal.
pub fn some_project()
    ensures { (env : Env) (texts : List ProjectText)
        → (outcome : Result Project Refusal) × IsProject env texts outcome }
{}
