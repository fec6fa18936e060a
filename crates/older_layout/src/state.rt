// The state between two pieces.
ghost use Rattle.std.specs.Prelude.{◌≡◌, false, true};
ghost use Rattle.plan_types.specs.Bytes.{begins_with};
ghost use Rattle.older_layout.specs.Cuts.{is_field, value};
ghost use Rattle.older_layout.specs.States.{opened, mode_after, mode_after_text, begun_mode, awaits, after, goes_on, begun, closed, in_layout, in_values, start, layout_field};

use crate::cut::{Kind, Piece, after, has_value, is_field, value};
use cabal_lexer::Line;
use text_grammar::begins_with;

/// What the next line is.
#[derive(Clone, Copy)]
pub enum Mode {
    /// It begins an item.
    Items,
    /// It is a value of a field, if it is deeper than this indent.
    Layout { indent: usize },
    /// It is between the braces of a field.
    Values,
    /// It begins with the value of the last piece, unless it begins with `}`.
    Value,
}

/// The number of open braces, what the next line is, and whether its first brace is the end of the last piece.
#[derive(Clone, Copy)]
pub struct State {
    braces: u32,
    mode: Mode,
    raised: bool,
}

impl State {
    /// The state at the start of a file.
    pub fn start() -> State
        ensures { result ≡ start }
    {
        State {
            braces: 0,
            mode: Mode::Items,
            raised: false,
        }
    }

    /// Whether a line is a further value of a field in layout.
    #[tactic(auto, unfolding(crate::specs::States::goes_on))]
    pub fn goes_on(&self, line: &Line) -> bool
        ensures { result ≡ goes_on self.now line.now }
    {
        match self.mode {
            Mode::Layout { indent } => indent < line.indent()
                && !(0 < self.braces && line.closes()),
            Mode::Items => false,
            Mode::Values => false,
            Mode::Value => false,
        }
    }

    /// The state in a field in layout.
    pub fn in_layout(&self, indent: usize) -> State
        ensures { result ≡ in_layout self.now indent }
    {
        State {
            braces: self.braces,
            mode: Mode::Layout { indent },
            raised: false,
        }
    }

    /// The state at the first piece of a line that isn't a value of a field in layout.
    #[tactic(auto, unfolding(crate::specs::States::begun))]
    pub fn begun(&self) -> State
        ensures { result ≡ begun self.now }
    {
        State {
            braces: self.braces,
            mode: begun_mode(self.mode),
            raised: false,
        }
    }

    /// Whether the next piece is between the braces of a field.
    #[tactic(auto, unfolding(crate::specs::States::in_values))]
    pub fn in_values(&self) -> bool
        ensures { result ≡ in_values self.now }
    {
        match self.mode {
            Mode::Values => true,
            Mode::Value => true,
            Mode::Items => false,
            Mode::Layout { .. } => false,
        }
    }

    /// Whether the next piece is the value of the last one.
    pub fn is_awaiting(&self) -> bool
        ensures { result ≡ awaits self.now.mode }
    {
        match self.mode {
            Mode::Value => true,
            Mode::Values => false,
            Mode::Items => false,
            Mode::Layout { .. } => false,
        }
    }

    pub fn is_raised(&self) -> bool
        ensures { result ≡ self.now.raised }
    {
        self.raised
    }

    /// The state after a `}` at the start of a line.
    pub fn closed(&self) -> State
        ensures { result ≡ closed self.now }
    {
        State {
            braces: opened(Kind::Closes, self.braces),
            mode: Mode::Items,
            raised: false,
        }
    }

    /// The state after a piece.
    #[tactic(auto, unfolding(crate::specs::States::after))]
    pub fn after(&self, piece: &Piece) -> State
        ensures { result ≡ after piece.now self.now }
    {
        State {
            braces: opened(piece.kind(), self.braces),
            mode: mode_after(piece.kind(), self.mode),
            raised: piece.is_raised(),
        }
    }
}

fn opened(kind: Kind, braces: u32) -> u32
    ensures { result ≡ opened kind braces }
{
    match kind {
        Kind::Closes => braces.saturating_sub(1),
        Kind::OpensValues => braces.saturating_add(1),
        Kind::OpensItems => braces.saturating_add(1),
        Kind::Awaits => braces,
        Kind::Plain => braces,
    }
}

fn mode_after(kind: Kind, mode: Mode) -> Mode
    ensures { result ≡ mode_after kind mode }
{
    match kind {
        Kind::Closes => Mode::Items,
        Kind::OpensValues => Mode::Values,
        Kind::OpensItems => Mode::Items,
        Kind::Awaits => Mode::Value,
        Kind::Plain => mode_after_text(mode),
    }
}

fn mode_after_text(mode: Mode) -> Mode
    ensures { result ≡ mode_after_text mode }
{
    match mode {
        Mode::Value => Mode::Items,
        Mode::Values => Mode::Values,
        Mode::Items => Mode::Items,
        Mode::Layout { indent } => Mode::Layout { indent },
    }
}

fn begun_mode(mode: Mode) -> Mode
    ensures { result ≡ begun_mode mode }
{
    match mode {
        Mode::Value => Mode::Value,
        Mode::Values => Mode::Values,
        Mode::Items => Mode::Items,
        Mode::Layout { .. } => Mode::Items,
    }
}

/// Whether a text is a field whose values aren't in braces.
#[tactic(auto, unfolding(crate::specs::States::layout_field))]
pub fn layout_field(text: &str, opens: bool) -> bool
    ensures { result ≡ layout_field text.now opens }
{
    if is_field(text) {
        let value = value(text);
        !begins_with(value.as_bytes(), b'{') && !(opens && value.is_empty())
    } else {
        false
    }
}
