// Laws of files and their trees.
ghost use Rattle.std.specs.Prelude.{◌≡◌, ℕ, List};
ghost use Rattle.plan_types.specs.declared.element.Element.{Element};
ghost use Rattle.plan_types.specs.declared.refusal.Cause.{Cause};
ghost use Rattle.older_layout.specs.OlderTree.{IsOlderTree, IsOlderFault};

/// A file has at most one tree.
pub fn one_tree()
    ensures { (bytes : List ℕ) (a b : List Element) → IsOlderTree bytes a → IsOlderTree bytes b → a ≡ b }
{}

/// A file has at most one first fault.
pub fn one_fault()
    ensures { (bytes : List ℕ) (n m : ℕ) (c d : Cause) → IsOlderFault bytes n c → IsOlderFault bytes m d
        → (n ≡ m) × (c ≡ d) }
{}

/// A file never has both a tree and a fault.
pub fn tree_or_fault()
    ensures { (bytes : List ℕ) (items : List Element) (line : ℕ) (cause : Cause) → IsOlderTree bytes items
        → IsOlderFault bytes line cause → ⊥ }
{}
