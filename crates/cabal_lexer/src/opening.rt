// The opening of an element: the text of its first line.
ghost use Rattle.std.specs.Prelude.{◌≡◌, ◌≤◌, true, IfOk};
ghost use Rattle.std.specs.List.{list_any};
ghost use Rattle.plan_types.specs.Name.{is_letter};
ghost use Rattle.cabal_lexer.specs.Opening.{is_name_byte, name_len, ends_with_brace, before_brace, field_opening, section_opening, named_opening, lower_case, opening, within, shown, seen};
ghost use Rattle.plan_types.specs.Bytes.{begins_with};

use crate::lines::{is_lone, trim, trim_end, trim_start};
use plan_types::Cause;

/// The kind and parts of an element's first line.
#[derive(Clone, Copy)]
pub enum Opening<'a> {
    Field { name: &'a str, first: &'a str },
    BracedField { name: &'a str },
    Section { name: &'a str, args: &'a str },
    BracedSection { name: &'a str, args: &'a str },
}

/// The opening of a line at a depth, which is 1 at the top.
pub fn opening_at(text: &str, depth: u32) -> Result<Opening<'_>, Cause>
    ensures value { seen result ≡ within depth (opening text.now) }
    ensures shallow { IfOk result (λ _. depth ≤ 64) }
{
    let begun = begun(text)?;
    if depth <= 64 {
        Ok(begun)
    } else {
        Err(Cause::TooDeep)
    }
}

#[tactic(auto, unfolding(crate::specs::Opening::opening))]
fn begun(text: &str) -> Result<Opening<'_>, Cause>
    ensures { seen result ≡ opening text.now }
{
    if begins_with(text, b'}') {
        return Err(Cause::StrayBrace);
    }
    let (name, rest) = text.split_at(name_len(text.as_bytes()));
    if !has_letter(name.as_bytes()) {
        return Err(Cause::BadName);
    }
    named(name, trim_start(rest))
}

fn begins_with(text: &str, byte: u8) -> bool
    ensures { result ≡ begins_with byte text.now }
{
    text.as_bytes().first() == Some(&byte)
}

fn is_name_byte(byte: u8) -> bool
    ensures { result ≡ is_name_byte byte }
{
    byte.is_ascii_alphanumeric() || byte == b'-' || byte == b'_' || byte == b'.'
}

/// The length of the name at the start of a text.
#[tactic(auto, unfolding(crate::specs::Opening::name_len))]
pub fn name_len(text: &[u8]) -> usize
    ensures { result ≡ name_len text.now }
{
    text.iter().take_while(|byte| is_name_byte(**byte)).count()
}

fn has_letter(name: &[u8]) -> bool
    ensures { result ≡ list_any is_letter name.now }
{
    name.iter().any(|byte| byte.is_ascii_alphabetic())
}

#[tactic(auto, unfolding(crate::specs::Opening::ends_with_brace))]
fn ends_with_brace(text: &[u8]) -> bool
    ensures { result ≡ ends_with_brace text.now }
{
    text.last() == Some(&b'{')
}

#[tactic(auto, unfolding(crate::specs::Opening::named_opening))]
fn named<'a>(name: &'a str, rest: &'a str) -> Result<Opening<'a>, Cause>
    ensures { seen result ≡ named_opening (lower_case name.now) rest.now }
{
    if begins_with(rest, b':') {
        let (_, value) = rest.split_at(1);
        Ok(field(name, trim(value)))
    } else {
        section(name, trim(rest))
    }
}

#[tactic(auto, unfolding(crate::specs::Opening::field_opening))]
fn field<'a>(name: &'a str, value: &'a str) -> Opening<'a>
    ensures { shown result ≡ field_opening (lower_case name.now) value.now }
{
    if is_lone(value, b'{') {
        Opening::BracedField { name }
    } else {
        Opening::Field { name, first: value }
    }
}

#[tactic(auto, unfolding(crate::specs::Opening::section_opening))]
fn section<'a>(name: &'a str, args: &'a str) -> Result<Opening<'a>, Cause>
    ensures { seen result ≡ section_opening (lower_case name.now) args.now }
{
    if !ends_with_brace(args.as_bytes()) {
        return Ok(Opening::Section { name, args });
    }
    let args = before_brace(args);
    if ends_with_brace(args.as_bytes()) {
        Err(Cause::StrayBrace)
    } else {
        Ok(Opening::BracedSection { name, args })
    }
}

#[tactic(auto, unfolding(crate::specs::Opening::before_brace))]
fn before_brace(args: &str) -> &str
    requires { ends_with_brace args.now ≡ true }
    ensures { result.now ≡ before_brace args.now }
{
    let (front, _) = args.split_at(args.len() - 1);
    trim_end(front)
}
