// The ids of units, which are single words.
ghost use Rattle.std.specs.Prelude.{◌≡◌, not};
ghost use Rattle.std.specs.List.{list_all};
ghost use Rattle.unit_record.specs.Words.{is_separator, is_unit_id};

use text_grammar::{Between, is_between};

/// Whether a text is one word.
pub fn is_unit_id(text: &[u8]) -> bool
    ensures { result ≡ is_unit_id text.now }
{
    match text {
        [] => false,
        bytes => has_no_separator(bytes),
    }
}

fn has_no_separator(text: &[u8]) -> bool
    ensures { result ≡ list_all (λ b. not (is_separator b)) text.now }
{
    text.iter()
        .all(|byte| !is_between(Between::BlanksAndCommas, *byte))
}
