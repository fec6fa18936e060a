// The kept lines of a file.
ghost use Rattle.std.specs.Prelude.{◌≡◌, ◌+◌, ◌-◌, ◌^◌, ◌<◌, ◌≤◌, ◌++◌, IfOk, OnOk, length, reverse};
ghost use Rattle.std.specs.List.{prefix_len};
ghost use Rattle.std.specs.Str.Lines.{lines as text_lines};
ghost use Rattle.cabal_lexer.specs.Lines.{indent, trim_start, trim_end, trim, is_comment, is_kept, kept_line, kept_from, without_mark};
ghost use Rattle.plan_types.specs.Bytes.{is_blank};
ghost use Rattle.cabal_lexer.specs.Opening.{is_lone};
ghost use Rattle.cabal_lexer.specs.Layout.{closes, ends};

use plan_types::NoMemory;
use std::alloc::Global;
use std::marker::Model;

/// A kept line: its number, its indent, and its text without blanks at both ends.
#[derive(Drop)]
pub struct Line<'a> {
    number: u32,
    indent: usize,
    text: &'a str,
}

impl<'a> Model for Line<'a> {
    ghost use Rattle.std.specs.Prelude.{◌^◌, ◌<◌};
    ghost use Rattle.cabal_lexer.specs.Lines.{Line};

    ghost Value = { Line };

    ghost view = { λ l. record { number = l.number; indent = l.indent; text = l.text.now } };

    ghost invariant = { λ l. l.indent < 2 ^ 32 };
}

impl<'a> Line<'a> {
    /// A line with this number, this indent and this text.
    pub fn new(number: u32, indent: u32, text: &'a str) -> Line<'a>
        ensures number { result.number ≡ number }
        ensures indent { result.indent ≡ indent }
        ensures text { result.text ≡ text.now }
    {
        Line {
            number,
            indent: indent as usize,
            text,
        }
    }

    pub fn number(&self) -> u32
        ensures { result ≡ self.now.number }
    {
        self.number
    }

    pub fn indent(&self) -> usize
        ensures value { result ≡ self.now.indent }
        ensures small { result < 2 ^ 32 }
    {
        self.indent
    }

    pub fn text(&self) -> &'a str
        ensures { result.now ≡ self.now.text }
    {
        self.text
    }

    /// Whether the line is `}`.
    pub fn closes(&self) -> bool
        ensures { result ≡ closes self.now }
    {
        is_lone(self.text, b'}')
    }

    /// Whether the line ends a block with this bound, or a block in braces.
    pub fn ends(&self, bound: usize, braced: bool) -> bool
        ensures { result ≡ ends bound braced self.now }
    {
        self.indent < bound || (braced && self.closes())
    }
}

/// Whether a text is this one byte.
#[tactic(auto, unfolding(crate::specs::Opening::is_lone))]
pub fn is_lone(text: &str, byte: u8) -> bool
    ensures { result ≡ is_lone byte text.now }
{
    text.len() == 1 && text.as_bytes()[0] == byte
}

fn is_blank(byte: u8) -> bool
    ensures { result ≡ is_blank byte }
{
    byte == b' ' || byte == b'\t'
}

/// The number of leading blanks.
#[tactic(auto, unfolding(crate::specs::Lines::indent))]
pub fn indent(text: &[u8]) -> usize
    ensures value { result ≡ indent text.now }
    ensures bound { result ≤ length text.now }
{
    text.iter().take_while(|byte| is_blank(**byte)).count()
}

/// The text without leading blanks.
pub fn trim_start(text: &str) -> &str
    ensures { result.now ≡ trim_start text.now }
{
    let (_, rest) = text.split_at(indent(text.as_bytes()));
    rest
}

#[tactic(auto, unfolding(crate::specs::Lines::indent))]
fn trailing(text: &[u8]) -> usize
    ensures { result ≡ indent (reverse text.now) }
{
    text.iter()
        .rev()
        .take_while(|byte| is_blank(**byte))
        .count()
}

/// The text without trailing blanks.
pub fn trim_end(text: &str) -> &str
    ensures { result.now ≡ trim_end text.now }
{
    let (front, _) = text.split_at(text.len() - trailing(text.as_bytes()));
    front
}

/// The text without blanks at both ends.
#[tactic(auto, unfolding(crate::specs::Lines::trim))]
pub fn trim(text: &str) -> &str
    ensures { result.now ≡ trim text.now }
{
    trim_end(trim_start(text))
}

/// Whether a line is a comment: it begins with `--`.
#[tactic(auto, unfolding(crate::specs::Lines::is_comment))]
pub fn is_comment(text: &[u8]) -> bool
    ensures { result ≡ is_comment text.now }
{
    2 <= text.len() && text[0] == b'-' && text[1] == b'-'
}

#[tactic(auto, unfolding(crate::specs::Lines::is_kept))]
fn is_kept(text: &str) -> bool
    ensures { result ≡ is_kept text.now }
{
    !text.is_empty() && !is_comment(text.as_bytes())
}

/// The text without its byte-order mark, if it has one.
#[tactic(auto, unfolding(crate::specs::Lines::without_mark))]
fn without_mark(text: &str) -> &str
    ensures { result.now ≡ without_mark text.now }
{
    match text.strip_prefix("\u{feff}") {
        Some(rest) => rest,
        None => text,
    }
}

#[tactic(auto, unfolding(crate::specs::Lines::kept_line))]
fn keep<'a>(kept: &mut Vec<Line<'a>>, number: u32, raw: &'a str) -> Result<(), NoMemory>
    requires { length raw.now < 2 ^ 32 }
    ensures { OnOk result (kept.new.items ≡ kept.old.items ++ kept_line number raw.now) }
{
    let text = trim(raw);
    if is_kept(text) {
        let indent = indent(raw.as_bytes());
        kept.push(Line {
            number,
            indent,
            text,
        })?;
    }
    Ok(())
}

/// The kept lines of a text.
pub fn kept_lines<'a>(alloc: Global, text: &'a str) -> Result<Vec<Line<'a>>, NoMemory>
    requires { length text.now < 2 ^ 32 - 1 }
    ensures { IfOk result (λ kept. kept.items ≡ kept_from 1 (text_lines (without_mark text.now))) }
{
    let mut kept = Vec::new(alloc);
    let mut number = 0;
    for raw in without_mark(text).lines() {
        number += 1;
        keep(&mut kept, number, raw)?;
    }
    Ok(kept)
}
