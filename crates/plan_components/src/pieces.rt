// Pieces of packages.
ghost use Rattle.std.specs.Prelude.{◌≡◌, [], ◌∷◌, IfOk, map, true};
ghost use Rattle.plan_components.specs.declared.node.Piece.TheVariants.{Whole, One};
ghost use Rattle.plan_components.specs.Wanted.{as_pieces, node_of};

use crate::node::{Node, Piece};
use plan_types::{List, NoMemory};
use qualified_goals::Qual;
use std::alloc::Global;

/// The pieces for these components of a package: one for each, or one for the whole package if it is built so.
pub(crate) fn as_pieces(alloc: Global, whole: bool, places: &[u64]) -> Result<List<Piece>, NoMemory>
    ensures { IfOk result (λ pieces. pieces ≡ as_pieces whole places.now) }
{
    if whole {
        return whole_piece(alloc, places);
    }
    one_by_one(alloc, places)
}

fn whole_piece(alloc: Global, places: &[u64]) -> Result<List<Piece>, NoMemory>
    ensures { IfOk result (λ pieces. pieces ≡ as_pieces true places.now) }
{
    match places {
        [] => Ok(List::new(alloc)),
        [_, ..] => only_whole(alloc),
    }
}

/// The one piece of an installed unit.
pub(crate) fn only_whole(alloc: Global) -> Result<List<Piece>, NoMemory>
    ensures { IfOk result (λ pieces. pieces ≡ Whole ∷ []) }
{
    let mut pieces = List::new(alloc);
    pieces.push(Piece::Whole)?;
    Ok(pieces)
}

fn one_by_one(alloc: Global, places: &[u64]) -> Result<List<Piece>, NoMemory>
    ensures { IfOk result (λ pieces. pieces ≡ map One places.now) }
{
    let mut pieces = List::new(alloc);
    for place in places {
        pieces.push(Piece::One(*place))?;
    }
    Ok(pieces)
}

/// A piece of a package under a qualifier.
pub(crate) fn node_of(qual: Qual, package: u64, piece: Piece) -> Node
    ensures { result ≡ node_of qual «package» piece }
{
    Node {
        qual,
        package,
        piece,
    }
}
