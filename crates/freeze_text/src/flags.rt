// Flags after the name of a package.
ghost use Rattle.std.specs.Prelude.{◌≡◌};
ghost use Rattle.freeze_text.specs.Reads.{are_flags, is_range_word};

use plan_types::FlagSet;

/// Whether these read as flags after a name: there is at least one, and they don't read as a range.
pub fn are_flags(sets: &[FlagSet]) -> bool
    ensures { result ≡ are_flags sets.now }
{
    match sets {
        [] => false,
        [only] => !is_range_word(only),
        _ => true,
    }
}

fn is_range_word(set: &FlagSet) -> bool
    ensures { result ≡ is_range_word set.now }
{
    !set.on && (set.name.as_str() == "any" || set.name.as_str() == "none")
}
