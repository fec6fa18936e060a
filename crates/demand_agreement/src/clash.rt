// Pairs of places.
ghost use Rattle.std.specs.Prelude.{◌≡◌};
ghost use Rattle.demand_agreement.specs.Clashes.{clash_of, comes_before, lesser, least};

/// The places of two demands.
#[derive(Clone, Copy, Debug, Drop)]
pub(crate) struct Clash {
    pub(crate) later: usize,
    pub(crate) earlier: usize,
}

pub(crate) fn clash_of(m: usize, n: usize) -> Clash
    ensures { result ≡ clash_of m n }
{
    if m < n {
        return Clash {
            later: n,
            earlier: m,
        };
    }
    Clash {
        later: m,
        earlier: n,
    }
}

fn comes_before(a: Clash, b: Clash) -> bool
    ensures { result ≡ comes_before a b }
{
    a.later < b.later || a.later == b.later && a.earlier < b.earlier
}

fn lesser(first: Option<Clash>, c: Clash) -> Clash
    ensures { result ≡ lesser first c }
{
    match first {
        Some(first) if !comes_before(c, first) => first,
        Some(_) | None => c,
    }
}

/// The least of some pairs, by the later place and then by the earlier.
pub(crate) fn least(clashes: &[Clash]) -> Option<Clash>
    ensures { result ≡ least clashes.now }
{
    let mut first = None;
    for c in clashes {
        first = Some(lesser(first, *c));
    }
    first
}
