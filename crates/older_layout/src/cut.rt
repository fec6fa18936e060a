// The first piece of a text.
ghost use Rattle.std.specs.Prelude.{◌≡◌, ◌∷◌, ◌<◌, ◌≤◌, [], true, false, length, drop};
ghost use Rattle.older_layout.specs.Cuts.{ends_word, code_len, brace_len, close_len, after_name, is_field, value, has_value, field_cut, section_cut, item_cut, value_cut, cut, uncommented, last_kind, last_piece, first_piece};
ghost use Rattle.plan_types.specs.Bytes.{begins_with};

use cabal_lexer::{is_comment, name_len, trim, trim_end, trim_start};
use std::marker::Model;
use text_grammar::begins_with;

/// What a piece does to the layout.
#[derive(Clone, Copy, Debug, PartialEq, Eq)]
pub enum Kind {
    /// It is `}`.
    Closes,
    /// A field whose values are in braces. It ends with `{`.
    OpensValues,
    /// A section whose items are in braces. It ends with `{`.
    OpensItems,
    /// A field whose value is on the next line.
    Awaits,
    /// Other text.
    Plain,
}

/// A piece of a line, and the text after it. The brace of a raised piece is on the next line.
#[derive(Drop)]
pub struct Piece<'a> {
    kind: Kind,
    text: &'a str,
    raised: bool,
    rest: &'a str,
}

impl<'a> Model for Piece<'a> {
    ghost use Rattle.older_layout.specs.Cuts.{Piece};

    ghost Value = { Piece };

    ghost view = { λ p. record { kind = p.kind; text = p.text.now; raised = p.raised; rest = p.rest.now } };
}

impl<'a> Piece<'a> {
    pub fn kind(&self) -> Kind
        ensures { result ≡ self.now.kind }
    {
        self.kind
    }

    pub fn text(&self) -> &'a str
        ensures { result.now ≡ self.now.text }
    {
        self.text
    }

    pub fn is_raised(&self) -> bool
        ensures { result ≡ self.now.raised }
    {
        self.raised
    }

    pub fn rest(&self) -> &'a str
        ensures { result.now ≡ self.now.rest }
    {
        self.rest
    }
}

/// The first piece of a text. `opens` says whether the next line begins with `{`.
#[tactic(auto, unfolding(crate::specs::Cuts::first_piece))]
pub fn first_piece(text: &str, in_values: bool, opens: bool) -> Piece<'_>
    requires { 0 < length text.now }
    ensures value { result ≡ first_piece in_values opens text.now }
    ensures shorter { length result.rest < length text.now }
{
    let (kind, length) = cut(text, in_values);
    let (front, back) = text.split_at(length);
    let text = trim_end(front);
    let rest = after(back);
    if !in_values && kind == Kind::Plain && rest.is_empty() && !has_value(text) {
        last_piece(text, opens)
    } else {
        Piece {
            kind,
            text,
            raised: false,
            rest,
        }
    }
}

// The last piece of a line: a field without a value, or the head of a section.
#[tactic(auto, unfolding(crate::specs::Cuts::last_piece))]
fn last_piece(text: &str, opens: bool) -> Piece<'_>
    ensures { result ≡ last_piece opens text.now }
{
    Piece {
        kind: last_kind(is_field(text), opens),
        text,
        raised: opens,
        rest: "",
    }
}

fn last_kind(is_field: bool, opens: bool) -> Kind
    ensures { result ≡ last_kind is_field opens }
{
    match (is_field, opens) {
        (true, true) => Kind::OpensValues,
        (false, true) => Kind::OpensItems,
        (true, false) => Kind::Awaits,
        (false, false) => Kind::Plain,
    }
}

/// The text without leading blanks, and nothing of a comment.
#[tactic(auto, unfolding(crate::specs::Cuts::uncommented))]
pub fn after(text: &str) -> &str
    ensures value { result.now ≡ uncommented text.now }
    ensures within { length result.now ≤ length text.now }
{
    let text = trim_start(text);
    if is_comment(text.as_bytes()) {
        ""
    } else {
        text
    }
}

// The kind and the length of the first piece.
fn cut(text: &str, in_values: bool) -> (Kind, usize)
    ensures { result ≡ cut in_values text.now }
{
    if in_values {
        value_cut(text.as_bytes())
    } else {
        item_cut(text)
    }
}

#[tactic(auto, unfolding(crate::specs::Cuts::value_cut))]
fn value_cut(text: &[u8]) -> (Kind, usize)
    ensures { result ≡ value_cut text.now }
{
    if begins_with(text, b'}') {
        (Kind::Closes, 1)
    } else {
        (Kind::Plain, close_len(text))
    }
}

#[tactic(auto, unfolding(crate::specs::Cuts::close_len))]
fn close_len(text: &[u8]) -> usize
    ensures { result ≡ close_len text.now }
{
    text.iter().take_while(|byte| **byte != b'}').count()
}

#[tactic(auto, unfolding(crate::specs::Cuts::item_cut))]
fn item_cut(text: &str) -> (Kind, usize)
    ensures { result ≡ item_cut text.now }
{
    if begins_with(text.as_bytes(), b'}') {
        return (Kind::Closes, 1);
    }
    let (head, tail) = text.split_at(brace_len(text.as_bytes()));
    let opens = begins_with(tail.as_bytes(), b'{');
    if is_field(head) {
        field_cut(head, opens)
    } else {
        section_cut(head.as_bytes(), opens)
    }
}

#[tactic(auto, unfolding(crate::specs::Cuts::field_cut))]
fn field_cut(head: &str, opens: bool) -> (Kind, usize)
    ensures { result ≡ field_cut head.now opens }
{
    if opens && !has_value(head) {
        (Kind::OpensValues, head.len() + 1)
    } else {
        (Kind::Plain, head.len())
    }
}

#[tactic(auto, unfolding(crate::specs::Cuts::section_cut))]
fn section_cut(head: &[u8], opens: bool) -> (Kind, usize)
    ensures { result ≡ section_cut head.now opens }
{
    let code = code_len(head);
    if code < head.len() {
        (Kind::Plain, code)
    } else if opens {
        (Kind::OpensItems, head.len() + 1)
    } else {
        (Kind::Plain, head.len())
    }
}

#[tactic(auto, unfolding(crate::specs::Cuts::brace_len))]
fn brace_len(text: &[u8]) -> usize
    ensures { result ≡ brace_len text.now }
{
    text.iter()
        .take_while(|byte| **byte != b'{' && **byte != b'}')
        .count()
}

// The length of the text up to the end of the word before a comment, inclusive.
fn code_len(text: &[u8]) -> usize
    ensures value { result ≡ code_len text.now }
{
    let mut length = 0;
    let mut rest = text;
    while let [first, more @ ..] = rest {
        length += 1;
        if ends_word(*first) && is_comment(more) {
            return length;
        }
        rest = more;
    }
    length
}

fn ends_word(byte: u8) -> bool
    ensures { result ≡ ends_word byte }
{
    matches!(byte, b' ' | b'\t' | b'(' | b')' | b'[' | b']')
}

#[tactic(auto, unfolding(crate::specs::Cuts::after_name))]
fn after_name(text: &str) -> &str
    ensures { result.now ≡ after_name text.now }
{
    let (_, rest) = text.split_at(name_len(text.as_bytes()));
    trim_start(rest)
}

/// Whether a text is a name and a colon.
#[tactic(auto, unfolding(crate::specs::Cuts::is_field))]
pub fn is_field(text: &str) -> bool
    ensures { result ≡ is_field text.now }
{
    begins_with(after_name(text).as_bytes(), b':')
}

/// What follows the colon of a field.
#[tactic(auto, unfolding(crate::specs::Cuts::is_field, crate::specs::Cuts::value))]
pub fn value(text: &str) -> &str
    requires { is_field text.now ≡ true }
    ensures { result.now ≡ value text.now }
{
    let (_, value) = after_name(text).split_at(1);
    trim(value)
}

/// Whether a text is a field with a value.
#[tactic(auto, unfolding(crate::specs::Cuts::has_value))]
pub fn has_value(text: &str) -> bool
    ensures { result ≡ has_value text.now }
{
    if is_field(text) {
        !value(text).is_empty()
    } else {
        false
    }
}
