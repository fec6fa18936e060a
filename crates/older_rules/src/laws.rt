// Laws of rewritten files.

ghost use Rattle.std.specs.Prelude.{◌≡◌, ℕ, [], List, Result, Ok};
ghost use Rattle.plan_types.specs.declared.element.Element.{Element};
ghost use Rattle.plan_types.specs.declared.refusal.Cause.{Cause};
ghost use Rattle.older_rules.specs.declared.modern.Modern.{Modern};
ghost use Rattle.cabal_lexer.specs.Tree.{tree_of};
ghost use Rattle.older_fields.specs.declared.edition.Edition.{Edition};
ghost use Rattle.older_rules.specs.Modern.{IsModern, BeginsWithHeader, sections, sections_told};

/// A file has at most one rewriting, at most one refusal, and never both.
pub fn one_outcome()
    ensures { (items : List Element) (a b : Result Modern (ℕ × Cause)) → IsModern items a → IsModern items b → a ≡ b }
{}

/// A rewritten file begins with a cabal-version that is read.
pub fn header_first()
    ensures { (items : List Element) (modern : Modern) → IsModern items (Ok modern) → BeginsWithHeader modern.items }
{}

/// Sections of which no change is told are as they were.
pub fn sections_alone()
    ensures { (edition : Edition) (heads rest : List Element) → sections_told edition heads rest ≡ []
        → tree_of (sections edition heads rest) ≡ tree_of rest }
{}
