//! Ends and starts of unclosed chains, and how near they lie.

ghost use Rattle.std.specs.Prelude.{◌≡◌, ◌*◌, ◌<◌, ◌≤◌, ◌^◌, false, true};
ghost use Rattle.coast_join.specs.Closings.{square_between};
ghost use Rattle.coast_join.specs.Sites.{IsNearestSite, is_gone, near_of, nearness};

use osm_geom::Loc;

/// The end or the start of an unclosed chain: where it lies, and the place of the chain in the list of chains.
#[derive(Clone, Copy)]
pub(crate) struct Site {
    pub(crate) at: Loc,
    pub(crate) chain: usize,
}

/// A site with the square of its distance from some location.
#[derive(Clone, Copy)]
pub(crate) struct Near {
    pub(crate) square: u128,
    pub(crate) site: Site,
}

/// The square of a number.
pub(crate) fn square(n: u32) -> u128
    ensures value { result ≡ n * n }
    ensures small { result < 2 ^ 64 }
{
    u128::from(n) * u128::from(n)
}

/// The square of the distance between two locations.
pub(crate) fn square_between(p: Loc, q: Loc) -> u128
    ensures { result ≡ square_between p q }
{
    square(p.x.abs_diff(q.x)) + square(p.y.abs_diff(q.y))
}

/// Whether a site of this chain, so far away, comes before another: by the distance, then by the chain.
pub(crate) fn is_nearer(square: u128, chain: usize, other: Near) -> bool
    ensures yes { result ≡ true → nearness square chain < near_of other }
    ensures no { result ≡ false → near_of other ≤ nearness square chain }
{
    square < other.square || square == other.square && chain < other.site.chain
}

/// Whether the chain of a site is marked; chains beyond the marks are.
pub(crate) fn is_gone(gone: &[bool], site: Site) -> bool
    ensures { result ≡ is_gone gone.now site }
{
    if site.chain < gone.len() {
        gone[site.chain]
    } else {
        true
    }
}

/// The nearer of a site, if its chain isn't marked, and the nearest one so far.
pub(crate) fn nearer(gone: &[bool], at: Loc, site: Site, best: Near) -> Near
    ensures { IsNearestSite (λ s. s ≡ site) gone.now at best result }
{
    let square = square_between(at, site.at);
    if !is_gone(gone, site) && is_nearer(square, site.chain, best) {
        return Near { square, site };
    }
    best
}
