// The first bytes of a text.
ghost use Rattle.std.specs.Prelude.{◌≡◌, ◌≢◌, ◌∷◌, ◌<◌, ◌≤◌, ℕ, List, length, IfSome, IfNone};
ghost use Rattle.std.specs.Option.{option_copied};
ghost use Rattle.plan_types.specs.Bytes.{begins_with};
ghost use Rattle.text_grammar.specs.Reading.{skip_blanks, byte_after};

/// The text without its leading spaces and tabs.
pub fn skip_blanks(text: &[u8]) -> &[u8]
    ensures rest { result.now ≡ skip_blanks text.now }
    ensures within { length result.now ≤ length text.now }
{
    let mut rest = text;
    while let [first, more @ ..] = rest {
        if *first != b' ' && *first != b'\t' {
            return rest;
        }
        rest = more;
    }
    rest
}

/// The rest of the text, if this byte is its first.
pub fn byte_after(text: &[u8], byte: u8) -> Option<&[u8]>
    ensures value { option_copied result ≡ byte_after byte text.now }
    ensures some { IfSome result (λ rest. text.now ≡ byte ∷ rest.now) }
    ensures none { IfNone result ((rest : List ℕ) → text.now ≢ byte ∷ rest) }
    ensures within { IfSome result (λ rest. length rest.now < length text.now) }
{
    match text {
        [first, rest @ ..] if *first == byte => Some(rest),
        _ => None,
    }
}

/// Whether this byte is the first.
pub fn begins_with(text: &[u8], byte: u8) -> bool
    ensures { result ≡ begins_with byte text.now }
{
    match text {
        [first, ..] => *first == byte,
        [] => false,
    }
}
