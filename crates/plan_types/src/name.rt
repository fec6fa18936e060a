// The forms of names.
ghost use Rattle.std.specs.Prelude.{◌≡◌};
ghost use Rattle.std.specs.List.{list_all, list_any};
ghost use Rattle.plan_types.specs.Name.{is_letter, is_letter_or_digit, is_group, is_package_name, is_component_byte, is_component_name, is_flag_name};

/// Whether a text is a package's name: groups of ASCII letters and digits, each with a letter, joined by `-`.
pub fn is_package_name(text: &[u8]) -> bool
    ensures { result ≡ is_package_name text.now }
{
    text.split(|byte| *byte == b'-').all(is_group)
}

/// Whether a text is a component's name: one or more ASCII letters, digits, `-` and `_`.
pub fn is_component_name(text: &[u8]) -> bool
    ensures { result ≡ is_component_name text.now }
{
    !text.is_empty() && has_component_bytes(text)
}

/// Whether a text is a flag's name: a component's name that doesn't begin with `-`.
pub fn is_flag_name(text: &[u8]) -> bool
    ensures { result ≡ is_flag_name text.now }
{
    is_component_name(text) && text.first() != Some(&b'-')
}

fn is_group(group: &[u8]) -> bool
    ensures { result ≡ is_group group.now }
{
    is_plain(group) && has_letter(group)
}

fn is_plain(group: &[u8]) -> bool
    ensures { result ≡ list_all is_letter_or_digit group.now }
{
    group.iter().all(|byte| is_letter_or_digit(*byte))
}

fn has_letter(group: &[u8]) -> bool
    ensures { result ≡ list_any is_letter group.now }
{
    group.iter().any(|byte| is_letter(*byte))
}

fn has_component_bytes(text: &[u8]) -> bool
    ensures { result ≡ list_all is_component_byte text.now }
{
    text.iter().all(|byte| is_component_byte(*byte))
}

fn is_letter(byte: u8) -> bool
    ensures { result ≡ is_letter byte }
{
    byte.is_ascii_alphabetic()
}

fn is_letter_or_digit(byte: u8) -> bool
    ensures { result ≡ is_letter_or_digit byte }
{
    byte.is_ascii_alphanumeric()
}

fn is_component_byte(byte: u8) -> bool
    ensures { result ≡ is_component_byte byte }
{
    is_letter_or_digit(byte) || byte == b'-' || byte == b'_'
}
