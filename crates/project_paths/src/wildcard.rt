// Whether a pattern matches a name. The pattern is cut at its stars. The first piece has to be a prefix of the name,
// the last one a suffix. Each other piece is searched for behind the one before it: its first occurrence leaves the
// most for the rest.
ghost use Rattle.std.specs.Prelude.{◌≡◌, ℕ, List, map, IfOk};
ghost use Rattle.std.specs.Option.{option_copied};
ghost use Rattle.plan_types.specs.Bytes.{begins_with};
ghost use Rattle.project_paths.specs.Wildcards.{fits, matches};
ghost use Rattle.project_paths.specs.Pieces.{behind, behind_front, cut, ends_so, match_behind, match_pieces};

use memchr::memmem::Finder;
use std::alloc::{AllocError, Global};

/// The pieces of a pattern between its stars, each ready to be searched for.
pub(crate) fn cut(alloc: Global, pattern: &str) -> Result<Vec<Finder<'_>>, AllocError>
    ensures { IfOk result (λ pieces. pieces.items ≡ cut pattern.now) }
{
    let pieces = pieces(alloc, pattern)?;
    finders(alloc, pieces.as_slice())
}

fn pieces(alloc: Global, pattern: &str) -> Result<Vec<&str>, AllocError>
    ensures { IfOk result (λ pieces. map (λ piece. piece.now) pieces.items ≡ cut pattern.now) }
{
    pattern.split('*').collect(alloc)
}

fn finders<'a>(alloc: Global, pieces: &[&'a str]) -> Result<Vec<Finder<'a>>, AllocError>
    ensures { IfOk result (λ finders. finders.items ≡ map (λ piece. piece.now) pieces.now) }
{
    let mut finders = Vec::new(alloc);
    for piece in pieces {
        finders.push(Finder::new(piece.as_bytes()))?;
    }
    Ok(finders)
}

/// Whether a pattern with these pieces matches a name. A name that begins with `.` needs a pattern that does.
pub(crate) fn matches(pattern: &[u8], pieces: &[Finder<'_>], name: &[u8]) -> bool
    requires { pieces.now ≡ cut pattern.now }
    ensures { result ≡ matches pattern.now name.now }
{
    if begins_with_point(name) && !begins_with_point(pattern) {
        return false;
    }
    fits(pieces, name)
}

fn begins_with_point(text: &[u8]) -> bool
    ensures { result ≡ begins_with 46 text.now }
{
    match text {
        [] => false,
        [first, ..] => *first == b'.',
    }
}

fn fits(pieces: &[Finder<'_>], name: &[u8]) -> bool
    ensures { (pattern : List ℕ) → pieces.now ≡ cut pattern → result ≡ fits pattern name.now }
{
    match_pieces(pieces, name)
}

fn match_pieces(pieces: &[Finder<'_>], name: &[u8]) -> bool
    ensures { result ≡ match_pieces pieces.now name.now }
{
    match pieces {
        [] => false,
        [only] => only.needle() == name,
        [first, others @ ..] => match behind_front(first.needle(), name) {
            None => false,
            Some(rest) => match_behind(others, rest),
        },
    }
}

// Whether pieces match, each of them behind a star.
fn match_behind(pieces: &[Finder<'_>], name: &[u8]) -> bool
    ensures { result ≡ match_behind pieces.now name.now }
{
    let mut left = pieces;
    let mut rest = name;
    while let [piece, others @ ..] = left {
        if others.is_empty() {
            return ends_so(piece.needle(), rest);
        }
        match behind(piece, rest) {
            None => return false,
            Some(more) => rest = more,
        }
        left = others;
    }
    false
}

fn ends_so(piece: &[u8], text: &[u8]) -> bool
    ensures { result ≡ ends_so piece.now text.now }
{
    text.ends_with(piece)
}

// The rest of a text after the first occurrence of a piece.
fn behind<'a>(piece: &Finder<'_>, text: &'a [u8]) -> Option<&'a [u8]>
    ensures { option_copied result ≡ behind piece.now text.now }
{
    let place = piece.find(text)?;
    Some(&text[place + piece.needle().len()..])
}

fn behind_front<'a>(piece: &[u8], text: &'a [u8]) -> Option<&'a [u8]>
    ensures { option_copied result ≡ behind_front piece.now text.now }
{
    text.strip_prefix(piece)
}
