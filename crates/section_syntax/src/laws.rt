// Laws that crates above use.

ghost use Rattle.std.specs.Prelude.{◌≡◌, List};
ghost use Rattle.plan_types.specs.declared.element.Element.{Element};
ghost use Rattle.plan_types.specs.declared.range.Spec.{Spec};
ghost use Rattle.section_syntax.specs.declared.part.File.{File};
ghost use Rattle.section_syntax.specs.File.{IsFile};

/// The elements of a file have at most one reading.
pub fn one_file()
    ensures { (spec : Spec) (items : List Element) (a b : File) → IsFile spec items a → IsFile spec items b → a ≡ b }
{}
