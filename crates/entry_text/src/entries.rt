// A text is cut into pieces at its commas. The entries among them are read one by one.
ghost use Rattle.std.specs.Prelude.{◌≡◌, ◌+◌, ◌≤◌, ◌==◌, ◌&&◌, ◌∷◌, ◌++◌, ◌<◌, [], ℕ, List, true, map, length, take, slice_index, IfOk, IfErr, IfSome, IfNone};
ghost use Rattle.plan_types.specs.declared.refusal.Cause.{Cause};
ghost use Rattle.plan_types.specs.Refusal.{Refuses};
ghost use Rattle.entry_text.specs.Entries.{depth_behind, left_open, commas_inside, Pieces, without_first, without_last, without_lone, are_blanks, entries, Each, First, HasEntries, HasFirstFault};

use crate::name::is_blank;
use plan_types::{List, NoMemory, TextFault};
use std::alloc::Global;
use text_grammar::byte_after;

/// A reader of parts of one kind, with their language and their faults.
pub trait EntryKind {
    type Item: Drop;

    ghost stands: { Self → List ℕ → Self.Item → Type 0 };

    ghost fails: { Self → List ℕ → Cause → Type 0 };

    fn read(&self, alloc: Global, part: &[u8]) -> Result<Self::Item, TextFault>
        ensures found { IfOk result (stands self.now part.now) }
        ensures fault { IfErr result (Refuses (fails self.now part.now)) };
}

/// Reads the entries of a text.
pub fn read_entries<R: EntryKind>(
    alloc: Global,
    row: &R,
    text: &[u8],
) -> Result<List<R::Item>, TextFault>
    ensures found { IfOk result (HasEntries (R.stands row.now) text.now) }
    ensures fault { IfErr result (Refuses (HasFirstFault (R.stands row.now) (R.fails row.now) text.now)) }
{
    let pieces = pieces(alloc, text)?;
    read_each(alloc, row, entries(pieces.as_slice()))
}

/// Reads parts, one by one.
pub fn read_each<R: EntryKind>(
    alloc: Global,
    row: &R,
    parts: &[&[u8]],
) -> Result<List<R::Item>, TextFault>
    ensures found { IfOk result (Each (R.stands row.now) (map (λ part. part.now) parts.now)) }
    ensures fault { IfErr result (Refuses
        (First (R.stands row.now) (R.fails row.now) (map (λ part. part.now) parts.now))) }
{
    let mut found = List::new(alloc);
    for part in parts {
        let item = row.read(alloc, part)?;
        found.push(item)?;
    }
    Ok(found)
}

// One leading and one trailing comma are allowed.
fn entries<'a, 'b>(pieces: &'b [&'a [u8]]) -> &'b [&'a [u8]]
    ensures { map (λ piece. piece.now) result.now ≡ entries (map (λ piece. piece.now) pieces.now) }
{
    without_lone(without_last(without_first(pieces)))
}

fn without_first<'a, 'b>(pieces: &'b [&'a [u8]]) -> &'b [&'a [u8]]
    ensures { map (λ piece. piece.now) result.now ≡ without_first (map (λ piece. piece.now) pieces.now) }
{
    match pieces {
        [first, rest @ ..] if !rest.is_empty() && are_blanks(first) => rest,
        _ => pieces,
    }
}

fn without_last<'a, 'b>(pieces: &'b [&'a [u8]]) -> &'b [&'a [u8]]
    ensures { map (λ piece. piece.now) result.now ≡ without_last (map (λ piece. piece.now) pieces.now) }
{
    match pieces {
        [rest @ .., last] if !rest.is_empty() && are_blanks(last) => rest,
        _ => pieces,
    }
}

fn without_lone<'a, 'b>(pieces: &'b [&'a [u8]]) -> &'b [&'a [u8]]
    ensures { map (λ piece. piece.now) result.now ≡ without_lone (map (λ piece. piece.now) pieces.now) }
{
    match pieces {
        [piece] if are_blanks(piece) => &[],
        _ => pieces,
    }
}

/// Whether a text is blanks only.
pub fn are_blanks(text: &[u8]) -> bool
    ensures { result ≡ are_blanks text.now }
{
    text.iter().all(|byte| is_blank(*byte))
}

/// Cuts a text at its commas, except those inside braces.
pub fn pieces<'a>(alloc: Global, text: &'a [u8]) -> Result<Vec<&'a [u8]>, NoMemory>
    ensures { IfOk result (λ pieces. Pieces text.now (map (λ piece. piece.now) pieces.items)) }
{
    let mut pieces = Vec::new(alloc);
    let mut rest = text;
    while let Some((piece, more)) = cut(rest) {
        pieces.push(piece)?;
        rest = more;
    }
    pieces.push(rest)?;
    Ok(pieces)
}

// The first piece, and the rest after its comma.
fn cut(text: &[u8]) -> Option<(&[u8], &[u8])>
    ensures some { IfSome result (λ p. (text.now ≡ p.0.now ++ 44 ∷ p.1.now)
        × (commas_inside 0 p.0.now ≡ true) × (left_open 0 p.0.now ≡ 0)) }
    ensures none { IfNone result (commas_inside 0 text.now ≡ true) }
    ensures within { IfSome result (λ p. length p.1.now < length text.now) }
{
    let end = piece_end(text)?;
    let (piece, rest) = text.split_at(end);
    let more = byte_after(rest, b',')?;
    Some((piece, more))
}

// The first comma that isn't inside braces.
fn piece_end(text: &[u8]) -> Option<usize>
    ensures some { IfSome result (λ end. (end < length text.now) × (slice_index text.now end ≡ 44)
        × (commas_inside 0 (take end text.now) ≡ true) × (left_open 0 (take end text.now) ≡ 0)) }
    ensures none { IfNone result (commas_inside 0 text.now ≡ true) }
{
    let mut depth = 0;
    for (at, byte) in text.iter().enumerate() {
        if splits(depth, *byte) {
            return Some(at);
        }
        depth = depth_behind(depth, *byte);
    }
    None
}

// Whether a byte separates two pieces, at this depth of braces.
fn splits(depth: usize, byte: u8) -> bool
    ensures { result ≡ (byte == 44 && depth == 0) }
{
    byte == b',' && depth == 0
}

// The number of open braces after a byte.
fn depth_behind(depth: usize, byte: u8) -> usize
    requires { depth < usize.MAX }
    ensures value { result ≡ depth_behind depth byte }
    ensures within { result ≤ depth + 1 }
{
    match byte {
        b'{' => depth + 1,
        b'}' => depth.saturating_sub(1),
        _ => depth,
    }
}
