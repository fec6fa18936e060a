// The lines of a file, laid out again.
ghost use Rattle.std.specs.Prelude.{◌≡◌, ◌+◌, ◌<◌, ◌^◌, ◌++◌, [], ◌∷◌, IfOk, OnOk, length, min};
ghost use Rattle.plan_types.specs.Bytes.{begins_with};
ghost use Rattle.cabal_lexer.specs.Lines.{indent};
ghost use Rattle.older_layout.specs.Relaid.{begins_with_brace, opens, inline, piece_text, piece_line, first_indent, pieces, behind, close_of, closers, item_line, raised_line, whole_line, laid, relaid};

use crate::cut::{Piece, after, first_piece};
use crate::state::{State, layout_field};
use cabal_lexer::{Line, indent};
use plan_types::{NoMemory, Text};
use std::alloc::Global;
use std::marker::Model;
use text_grammar::begins_with;

/// The indent of a piece that doesn't begin its line. It is deeper than each line of a file.
const INLINE: u32 = 1048576;

/// A line that owns its text.
#[derive(Drop)]
pub struct OwnLine {
    number: u32,
    indent: u32,
    text: Text,
}

impl Model for OwnLine {
    ghost use Rattle.cabal_lexer.specs.Lines.{Line};

    ghost Value = { Line };

    ghost view = { λ l. record { number = l.number; indent = l.indent; text = l.text } };
}

impl OwnLine {
    fn as_line(&self) -> Line<'_>
        ensures { result ≡ self.now }
    {
        Line::new(self.number, self.indent, self.text.as_str())
    }
}

/// The lines, for a reader that borrows them.
pub fn borrowed(alloc: Global, lines: &[OwnLine]) -> Result<Vec<Line<'_>>, NoMemory>
    ensures { IfOk result (λ found. found.items ≡ lines.now) }
{
    let mut found = Vec::new(alloc);
    for line in lines {
        found.push(line.as_line())?;
    }
    Ok(found)
}

/// The lines of a file, laid out again.
pub fn relaid(alloc: Global, lines: &[Line]) -> Result<Vec<OwnLine>, NoMemory>
    ensures { IfOk result (λ found. found.items ≡ relaid lines.now) }
{
    let mut found = Vec::new(alloc);
    let mut state = State::start();
    let mut rest = lines;
    while let [line, more @ ..] = rest {
        state = push_line(alloc, &mut found, line, opens(more), state)?;
        rest = more;
    }
    Ok(found)
}

// Whether the next line begins with `{`.
fn opens(lines: &[Line]) -> bool
    ensures { result ≡ opens lines.now }
{
    match lines {
        [line, ..] => begins_with(line.text().as_bytes(), b'{'),
        [] => false,
    }
}

// One line.
#[tactic(auto, unfolding(crate::specs::Relaid::laid))]
fn push_line(
    alloc: Global,
    found: &mut Vec<OwnLine>,
    line: &Line,
    opens: bool,
    state: State,
) -> Result<State, NoMemory>
    ensures lines { OnOk result (found.new.items ≡ found.old.items ++ (laid opens state line.now).0) }
    ensures state { IfOk result (λ after. after ≡ (laid opens state line.now).1) }
{
    if state.goes_on(line) {
        push_whole(alloc, found, line)?;
        Ok(state)
    } else if state.is_raised() {
        push_raised(alloc, found, &behind(line), opens, state.begun())
    } else {
        push_rest(alloc, found, line, opens, state.begun())
    }
}

// What follows a brace that is the end of the last piece.
#[tactic(auto, unfolding(crate::specs::Relaid::raised_line))]
fn push_raised(
    alloc: Global,
    found: &mut Vec<OwnLine>,
    line: &Line,
    opens: bool,
    state: State,
) -> Result<State, NoMemory>
    ensures lines { OnOk result (found.new.items ≡ found.old.items ++ (raised_line opens state line.now).0) }
    ensures state { IfOk result (λ after. after ≡ (raised_line opens state line.now).1) }
{
    if state.in_values() {
        push_pieces(alloc, found, line, opens, state)
    } else {
        push_rest(alloc, found, line, opens, state)
    }
}

// A line that isn't a further value of a field in layout.
fn push_rest(
    alloc: Global,
    found: &mut Vec<OwnLine>,
    line: &Line,
    opens: bool,
    state: State,
) -> Result<State, NoMemory>
    ensures lines { OnOk result (found.new.items ≡ found.old.items ++ (whole_line opens state line.now).0) }
    ensures state { IfOk result (λ after. after ≡ (whole_line opens state line.now).1) }
{
    let (state, rest) = push_closers(alloc, found, line, state)?;
    push_item(alloc, found, &rest, opens, state)
}

// The `}` at the start of a line. Returns the state after them, and the line behind them.
fn push_closers<'a>(
    alloc: Global,
    found: &mut Vec<OwnLine>,
    line: &Line<'a>,
    state: State,
) -> Result<(State, Line<'a>), NoMemory>
    ensures lines { OnOk result (found.new.items ≡ found.old.items
        ++ (closers (length line.now.text) state line.now).0) }
    ensures rest { IfOk result (λ r. (r.0, r.1) ≡ (closers (length line.now.text) state line.now).1) }
{
    let mut state = state;
    let mut rest = copied(line);
    while begins_with(rest.text().as_bytes(), b'}') {
        push_close(alloc, found, &rest)?;
        state = state.closed();
        rest = behind(&rest);
    }
    Ok((state, rest))
}

// A line that doesn't begin with `}`.
#[tactic(auto, unfolding(crate::specs::Relaid::item_line))]
fn push_item(
    alloc: Global,
    found: &mut Vec<OwnLine>,
    line: &Line,
    opens: bool,
    state: State,
) -> Result<State, NoMemory>
    ensures lines { OnOk result (found.new.items ≡ found.old.items ++ (item_line opens state line.now).0) }
    ensures state { IfOk result (λ after. after ≡ (item_line opens state line.now).1) }
{
    if !state.in_values() && layout_field(line.text(), opens) {
        push_whole(alloc, found, line)?;
        Ok(state.in_layout(line.indent()))
    } else {
        push_pieces(alloc, found, line, opens, state)
    }
}

// What follows a brace at the start of a line.
#[tactic(auto, unfolding(crate::specs::Relaid::behind))]
fn behind<'a>(line: &Line<'a>) -> Line<'a>
    ensures { result ≡ behind line.now }
{
    let text = line.text();
    if begins_with_brace(text.as_bytes()) {
        let (_, rest) = text.split_at(1);
        Line::new(line.number(), short_indent(rest), after(rest))
    } else {
        copied(line)
    }
}

fn begins_with_brace(text: &[u8]) -> bool
    ensures { result ≡ begins_with_brace text.now }
{
    begins_with(text, b'{') || begins_with(text, b'}')
}

fn copied<'a>(line: &Line<'a>) -> Line<'a>
    ensures { result ≡ line.now }
{
    Line::new(line.number(), line.indent() as u32, line.text())
}

fn short_indent(text: &str) -> u32
    ensures { result ≡ min (indent text.now) inline }
{
    let indent = indent(text.as_bytes());
    if indent < INLINE as usize {
        indent as u32
    } else {
        INLINE
    }
}

fn push_whole(alloc: Global, found: &mut Vec<OwnLine>, line: &Line) -> Result<(), NoMemory>
    ensures { OnOk result (found.new.items ≡ found.old.items ++ line.now ∷ []) }
{
    let line = OwnLine {
        number: line.number(),
        indent: line.indent() as u32,
        text: Text::from_str(alloc, line.text())?,
    };
    Ok(found.push(line)?)
}

fn push_close(alloc: Global, found: &mut Vec<OwnLine>, line: &Line) -> Result<(), NoMemory>
    ensures { OnOk result (found.new.items ≡ found.old.items ++ close_of line.now ∷ []) }
{
    let line = OwnLine {
        number: line.number(),
        indent: line.indent() as u32,
        text: Text::from_str(alloc, "}")?,
    };
    Ok(found.push(line)?)
}

// The pieces of a line.
fn push_pieces(
    alloc: Global,
    found: &mut Vec<OwnLine>,
    line: &Line,
    opens: bool,
    state: State,
) -> Result<State, NoMemory>
    ensures lines { OnOk result (found.new.items ≡ found.old.items ++ (pieces opens state line.now).0) }
    ensures state { IfOk result (λ after. after ≡ (pieces opens state line.now).1) }
{
    let mut indent = first_indent(state, line);
    let mut rest = line.text();
    let mut state = state;
    while !rest.is_empty() {
        let piece = first_piece(rest, state.in_values(), opens);
        push_piece(alloc, found, line.number(), indent, &piece)?;
        state = state.after(&piece);
        indent = INLINE;
        rest = piece.rest();
    }
    Ok(state)
}

fn first_indent(state: State, line: &Line) -> u32
    ensures { result ≡ first_indent state line.now }
{
    if state.is_awaiting() {
        INLINE + 1
    } else {
        line.indent() as u32
    }
}

fn push_piece(
    alloc: Global,
    found: &mut Vec<OwnLine>,
    number: u32,
    indent: u32,
    piece: &Piece,
) -> Result<(), NoMemory>
    ensures { OnOk result (found.new.items ≡ found.old.items ++ piece_line number indent piece.now ∷ []) }
{
    let line = OwnLine {
        number,
        indent,
        text: piece_text(alloc, piece)?,
    };
    Ok(found.push(line)?)
}

fn piece_text(alloc: Global, piece: &Piece) -> Result<Text, NoMemory>
    ensures { IfOk result (λ text. text ≡ piece_text piece.now) }
{
    let mut text = Text::from_str(alloc, piece.text())?;
    if piece.is_raised() {
        text.push_str(" {")?;
    }
    Ok(text)
}
