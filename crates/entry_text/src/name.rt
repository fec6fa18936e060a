// Runs of bytes in an entry.
ghost use Rattle.std.specs.Prelude.{◌≡◌, ◌≤◌, length, true, IfOk};
ghost use Rattle.std.specs.List.{prefix_len};
ghost use Rattle.plan_types.specs.Bytes.{is_blank};
ghost use Rattle.plan_types.specs.Name.{is_component_byte, is_component_name, is_package_name};
ghost use Rattle.entry_text.specs.Words.{run, behind, is_name_byte, is_in_braces, name_of, behind_name};

use plan_types::{NoMemory, Text};
use std::alloc::Global;

/// The name after leading blanks, and the rest.
pub fn name_at(text: &[u8]) -> (&[u8], &[u8])
    ensures name { result.0.now ≡ name_of text.now }
    ensures rest { result.1.now ≡ behind_name text.now }
{
    name_run(unblank(text))
}

/// The text without its leading blanks.
pub fn unblank(text: &[u8]) -> &[u8]
    ensures { result.now ≡ behind is_blank text.now }
{
    let (_, rest) = text.split_at(blanks(text));
    rest
}

/// The name at the start of a text, and the rest.
pub fn name_run(text: &[u8]) -> (&[u8], &[u8])
    ensures front { result.0.now ≡ run is_name_byte text.now }
    ensures rest { result.1.now ≡ behind is_name_byte text.now }
{
    text.split_at(name_len(text))
}

/// The name of a library or an executable, and the rest.
pub fn component_run(text: &[u8]) -> (&[u8], &[u8])
    ensures front { result.0.now ≡ run is_component_byte text.now }
    ensures rest { result.1.now ≡ behind is_component_byte text.now }
{
    text.split_at(component_len(text))
}

/// The text before a closing brace, and the rest from the brace on.
pub fn braces_run(text: &[u8]) -> (&[u8], &[u8])
    ensures front { result.0.now ≡ run is_in_braces text.now }
    ensures rest { result.1.now ≡ behind is_in_braces text.now }
{
    text.split_at(braces_len(text))
}

fn blanks(text: &[u8]) -> usize
    ensures count { result ≡ prefix_len is_blank text.now }
    ensures within { result ≤ length text.now }
{
    text.iter().take_while(|byte| is_blank(**byte)).count()
}

fn name_len(text: &[u8]) -> usize
    ensures count { result ≡ prefix_len is_name_byte text.now }
    ensures within { result ≤ length text.now }
{
    text.iter().take_while(|byte| is_name_byte(**byte)).count()
}

fn component_len(text: &[u8]) -> usize
    ensures count { result ≡ prefix_len is_component_byte text.now }
    ensures within { result ≤ length text.now }
{
    text.iter()
        .take_while(|byte| is_component_byte(**byte))
        .count()
}

fn braces_len(text: &[u8]) -> usize
    ensures count { result ≡ prefix_len is_in_braces text.now }
    ensures within { result ≤ length text.now }
{
    text.iter().take_while(|byte| **byte != b'}').count()
}

/// Whether the byte is a space or a tab.
pub fn is_blank(byte: u8) -> bool
    ensures { result ≡ is_blank byte }
{
    byte == b' ' || byte == b'\t'
}

fn is_name_byte(byte: u8) -> bool
    ensures { result ≡ is_name_byte byte }
{
    byte.is_ascii_alphanumeric() || byte == b'-'
}

/// Whether the byte is allowed in the name of a library, an executable or a flag.
pub fn is_component_byte(byte: u8) -> bool
    ensures { result ≡ is_component_byte byte }
{
    is_name_byte(byte) || byte == b'_'
}

/// The name of a library, an executable or a flag, as a text.
pub fn component_text(alloc: Global, name: &[u8]) -> Result<Text, NoMemory>
    requires { is_component_name name.now ≡ true }
    ensures { IfOk result (λ text. text ≡ name.now) }
{
    Text::from_ascii(alloc, name)
}

/// The name of a package, as a text.
pub fn package_text(alloc: Global, name: &[u8]) -> Result<Text, NoMemory>
    requires { is_package_name name.now ≡ true }
    ensures { IfOk result (λ text. text ≡ name.now) }
{
    Text::from_ascii(alloc, name)
}
