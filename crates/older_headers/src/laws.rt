// Laws of files and what becomes of them.
ghost use Rattle.std.specs.Prelude.{◌≡◌, ℕ, List};
ghost use Rattle.plan_types.specs.declared.refusal.Cause.{Cause};
ghost use Rattle.older_rules.specs.declared.change.Change.{Change};
ghost use Rattle.older_headers.specs.Answers.{IsAnswer, IsRefusal};
ghost use Rattle.older_headers.specs.declared.answer.Answer.{Answer as TheAnswer};
ghost use Rattle.older_headers.specs.declared.answer.Answer.TheVariants.{Rewritten, Unchanged};

use older_rules::{header_first, one_outcome};

/// A file has at most one answer.
pub fn one_answer()
    ensures { (bytes : List ℕ) (a b : TheAnswer) → IsAnswer bytes a → IsAnswer bytes b → a ≡ b }
{
    older_layout::one_tree();
    one_outcome();
}

/// A file has at most one refusal.
pub fn one_refusal()
    ensures { (bytes : List ℕ) (n m : ℕ) (c d : Cause) → IsRefusal bytes n c → IsRefusal bytes m d
        → (n ≡ m) × (c ≡ d) }
{
    older_layout::one_tree();
    older_layout::one_fault();
    older_layout::tree_or_fault();
    one_outcome();
}

/// A file never has both an answer and a refusal.
pub fn answer_or_refusal()
    ensures { (bytes : List ℕ) (answer : TheAnswer) (line : ℕ) (cause : Cause) → IsAnswer bytes answer
        → IsRefusal bytes line cause → ⊥ }
{
    older_layout::one_tree();
    older_layout::tree_or_fault();
    one_outcome();
}

/// A second run changes nothing: the planner reads the text of a rewritten file as it is.
pub fn text_stays()
    ensures { (bytes text : List ℕ) (changes : List Change) → IsAnswer bytes (Rewritten text changes)
        → IsAnswer text Unchanged }
{
    header_first();
}
