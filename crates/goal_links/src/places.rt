// The places of the mentions of one variable.
ghost use Rattle.std.specs.Prelude.{◌≡◌, ◌<◌, [], None, length, map};
ghost use Rattle.std.specs.Iterator.{YieldsFirst, item_count};
ghost use Rattle.goal_links.specs.Ring.{AreOnce};
ghost use Rattle.goal_links.specs.Chains.{chain_at};
ghost use Rattle.goal_links.specs.Mentions.{place_at};

use crate::links::Links;
use std::marker::Model;

/// The places of the demands that mention a variable, in order. Nothing is allocated.
#[derive(Drop)]
pub struct MentionPlaces<'a> {
    links: &'a Links,
    // The cell of the next mention.
    at: Option<usize>,
}

impl<'a> Model for MentionPlaces<'a> {
    ghost use Rattle.std.specs.Prelude.{List, ℕ, IfSome};
    ghost use Rattle.goal_links.specs.Places.{IsInChain, places_from};

    ghost Value = { List ℕ };

    ghost view = { λ p. places_from p.links.now p.at };

    ghost invariant = { λ p. IfSome p.at (IsInChain p.links.now) };
}

impl<'a> MentionPlaces<'a> {
    /// The places of the cells of an entry's chain.
    pub(crate) fn of(links: &'a Links, entry: usize) -> MentionPlaces<'a>
        requires entry { entry < length links.now.vars }
        requires once { AreOnce None (chain_at links.now.chains entry) }
        ensures { result ≡ map (place_at links.now.cells) (chain_at links.now.chains entry) }
    {
        let at = links.chain_first(entry);
        MentionPlaces { links, at }
    }

    pub(crate) fn none(links: &'a Links) -> MentionPlaces<'a>
        ensures { result ≡ [] }
    {
        MentionPlaces { links, at: None }
    }
}

impl<'a> Iterator for MentionPlaces<'a> {
    type Item = usize;

    ghost next_gives = { YieldsFirst (λ places. places) };

    ghost remaining = { item_count (λ places. places) };

    #[inline(always)]
    fn next(&mut self) -> Option<usize> {
        let cell = self.at?;
        self.at = self.links.chain_next(cell);
        Some(self.links.place_of(cell))
    }
}
