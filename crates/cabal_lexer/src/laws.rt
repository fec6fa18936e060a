// Laws of texts and their trees.
ghost use Rattle.std.specs.Prelude.{◌≡◌, ℕ, List, true};
ghost use Rattle.plan_types.specs.declared.element.Element.{Element};
ghost use Rattle.plan_types.specs.declared.refusal.Cause.{Cause};
ghost use Rattle.cabal_lexer.specs.Fault.{IsTree, IsFault};
ghost use Rattle.cabal_lexer.specs.Canonical.{canonical};
ghost use Rattle.cabal_lexer.specs.Printable.{Printable};
ghost use Rattle.cabal_lexer.specs.RoundTrip.{unnumbered, without_returns};

/// A text has at most one tree.
pub fn one_tree()
    ensures { (bytes : List ℕ) (a b : List Element) → IsTree bytes a → IsTree bytes b → a ≡ b }
{}

/// A text has at most one first fault.
pub fn one_fault()
    ensures { (bytes : List ℕ) (n m : ℕ) (c d : Cause) → IsFault bytes n c → IsFault bytes m d
        → (n ≡ m) × (c ≡ d) }
{}

/// A text never has both a tree and a fault.
pub fn tree_or_fault()
    ensures { (bytes : List ℕ) (items : List Element) (line : ℕ) (cause : Cause) → IsTree bytes items
        → IsFault bytes line cause → ⊥ }
{}

/// The canonical text of a text's tree parses as the same tree, except for line numbers. No value and no args may end
/// with a carriage return.
pub fn round_trip()
    ensures { (bytes : List ℕ) (items : List Element) → IsTree bytes items → without_returns items ≡ true →
        (again : List Element) × IsTree (canonical items) again × (unnumbered again ≡ unnumbered items) }
{}

/// The canonical text of a printable tree parses as the same tree, except for line numbers.
pub fn printed_tree()
    ensures { (items : List Element) → Printable 1 items →
        (again : List Element) × IsTree (canonical items) again × (unnumbered again ≡ unnumbered items) }
{}

/// A text's tree is printable, unless a value or args end with a carriage return.
pub fn printable_tree()
    ensures { (bytes : List ℕ) (items : List Element) → IsTree bytes items → without_returns items ≡ true
        → Printable 1 items }
{}
