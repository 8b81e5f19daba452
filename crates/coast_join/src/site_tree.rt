//! A tree over sites. It finds the nearest site whose chain is not marked.
//!
//! The sites are in such an order that the sites of each stretch that the tree halves are near each other. What is known of
//! a stretch is kept at its middle. The proofs take each such entry for itself. How the list is halved, and in what order,
//! bears on speed alone.

ghost use Rattle.std.specs.Prelude.{◌≡◌, ◌+◌, ◌<◌, ◌≤◌, All, Bool, Contains, List, length, slice_set, true, false};
ghost use Rattle.coast_join.specs.declared.sites.Site.{Site};
ghost use Rattle.coast_join.specs.Sites.{IsNearestSite, is_gone};
ghost use Rattle.coast_join.specs.SiteTrees.{AreGoneIn, AreHalves, IsRightNode, IsSiteTree, Stands};

use crate::bounds::{Bounds, square_to};
use crate::sites::{Near, Site, is_gone, is_nearer, nearer};
use osm_geom::Loc;

/// A part of a list: the place at which it begins, and the one before which it ends.
#[derive(Clone, Copy)]
pub(crate) struct Stretch {
    pub(crate) first: usize,
    pub(crate) end: usize,
}

/// What is known of the sites of a stretch: their bounds, and whether the chains of all are marked.
#[derive(Clone, Copy)]
pub(crate) struct SiteNode {
    pub(crate) stretch: Stretch,
    pub(crate) bounds: Bounds,
    pub(crate) spent: bool,
}

/// Sites with what is known of stretches of them, which chains are marked, and the place of the site of each chain.
#[derive(Drop)]
pub(crate) struct SiteTree {
    pub(crate) sites: Vec<Site>,
    pub(crate) nodes: Vec<SiteNode>,
    pub(crate) gone: Vec<bool>,
    pub(crate) places: Vec<usize>,
}

/// Whether a stretch has at most one site.
pub(crate) fn is_short(stretch: Stretch) -> bool
    ensures yes { result ≡ true → stretch.end ≤ stretch.first + 1 }
    ensures no { result ≡ false → stretch.first + 1 < stretch.end }
{
    stretch.end.saturating_sub(stretch.first) < 2
}

/// The place at which a stretch is halved.
pub(crate) fn middle_of(stretch: Stretch) -> usize
    requires { stretch.first + 1 < stretch.end }
    ensures first { stretch.first < result }
    ensures end { result < stretch.end }
{
    stretch.first + (stretch.end - stretch.first) / 2
}

/// The halves of a stretch, the second one first if that is asked.
fn halves(stretch: Stretch, middle: usize, second_first: bool) -> (Stretch, Stretch)
    requires first { stretch.first < middle }
    requires end { middle < stretch.end }
    ensures { AreHalves stretch result.0 result.1 }
{
    let first = Stretch {
        first: stretch.first,
        end: middle,
    };
    let second = Stretch {
        first: middle,
        end: stretch.end,
    };
    if second_first {
        return (second, first);
    }
    (first, second)
}

/// Whether a node is about this stretch.
fn is_of(node: SiteNode, stretch: Stretch) -> bool
    ensures first { result ≡ true → node.stretch.first ≡ stretch.first }
    ensures end { result ≡ true → node.stretch.end ≡ stretch.end }
{
    node.stretch.first == stretch.first && node.stretch.end == stretch.end
}

/// Whether, by the node, no site of the stretch with an unmarked chain comes before the nearest one so far.
fn is_farther(node: SiteNode, stretch: Stretch, at: Loc, best: Near) -> bool
    ensures { result ≡ true → (sites : List Site) → (gone : List Bool)
        → IsRightNode sites gone node → IsNearestSite (Stands sites stretch) gone at best best }
{
    if !is_of(node, stretch) {
        return false;
    }
    if node.spent {
        return true;
    }
    let square = square_to(at, node.bounds);
    !is_nearer(square, node.bounds.least, best)
}

/// How far away a stretch is, as far as a node tells.
fn square_to_stretch(nodes: &[SiteNode], stretch: Stretch, at: Loc) -> u128 {
    if is_short(stretch) {
        return 0;
    }
    match nodes.get(middle_of(stretch)) {
        Some(node) => square_to(at, node.bounds),
        None => 0,
    }
}

/// The halves of a stretch, the nearer one first.
fn nearer_half_first(
    nodes: &[SiteNode],
    stretch: Stretch,
    middle: usize,
    at: Loc,
) -> (Stretch, Stretch)
    requires first { stretch.first < middle }
    requires end { middle < stretch.end }
    ensures { AreHalves stretch result.0 result.1 }
{
    let (first, second) = halves(stretch, middle, false);
    let second_first = square_to_stretch(nodes, second, at) < square_to_stretch(nodes, first, at);
    halves(stretch, middle, second_first)
}

/// The nearest site of a stretch of at most one.
fn nearest_of_one(tree: &SiteTree, stretch: Stretch, at: Loc, best: Near) -> Near
    requires short { stretch.end ≤ stretch.first + 1 }
    requires inside { stretch.end ≤ length tree.now.sites.items }
    ensures { IsNearestSite (Stands tree.now.sites.items stretch) tree.now.gone.items
        at best result }
{
    if stretch.end <= stretch.first {
        return best;
    }
    nearer(&tree.gone, at, tree.sites[stretch.first], best)
}

/// The nearest site of a stretch with an unmarked chain, if it comes before the nearest one so far.
fn nearest_in(tree: &SiteTree, stretch: Stretch, at: Loc, best: Near) -> Near
    requires tree { IsSiteTree tree.now }
    requires inside { stretch.end ≤ length tree.now.sites.items }
    ensures { IsNearestSite (Stands tree.now.sites.items stretch) tree.now.gone.items
        at best result }
{
    if is_short(stretch) {
        return nearest_of_one(tree, stretch, at, best);
    }
    let middle = middle_of(stretch);
    if is_farther(tree.nodes[middle], stretch, at, best) {
        return best;
    }
    let (near, far) = nearer_half_first(&tree.nodes, stretch, middle, at);
    let best = nearest_in(tree, near, at, best);
    nearest_in(tree, far, at, best)
}

/// The nearest site with an unmarked chain, if it comes before one that is given.
pub(crate) fn nearest(tree: &SiteTree, at: Loc, best: Near) -> Near
    requires { IsSiteTree tree.now }
    ensures { IsNearestSite (Contains tree.now.sites.items) tree.now.gone.items at best result }
{
    let whole = Stretch {
        first: 0,
        end: tree.sites.len(),
    };
    nearest_in(tree, whole, at, best)
}

/// Whether, by its node, the chains of all sites of a stretch are marked.
fn is_spent(sites: &[Site], gone: &[bool], nodes: &[SiteNode], stretch: Stretch) -> bool
    requires inside { stretch.end ≤ length sites.now }
    requires sized { length nodes.now ≡ length sites.now }
    requires right { All (IsRightNode sites.now gone.now) nodes.now }
    ensures { result ≡ true → AreGoneIn sites.now gone.now stretch }
{
    if is_short(stretch) {
        return stretch.end <= stretch.first || is_gone(gone, sites[stretch.first]);
    }
    let node = nodes[middle_of(stretch)];
    is_of(node, stretch) && node.spent
}

/// Notes at a stretch that the chains of all its sites are marked, if its halves say so.
fn refresh(sites: &[Site], gone: &[bool], nodes: &mut [SiteNode], stretch: Stretch)
    requires long { stretch.first + 1 < stretch.end }
    requires inside { stretch.end ≤ length sites.now }
    requires sized { length nodes.old ≡ length sites.now }
    requires right { All (IsRightNode sites.now gone.now) nodes.old }
    ensures sized { length nodes.new ≡ length nodes.old }
    ensures right { All (IsRightNode sites.now gone.now) nodes.new }
{
    let middle = middle_of(stretch);
    let (first, second) = halves(stretch, middle, false);
    if is_of(nodes[middle], stretch)
        && is_spent(sites, gone, nodes, first)
        && is_spent(sites, gone, nodes, second)
    {
        nodes[middle].spent = true;
    }
}

/// Refreshes the stretches that hold a place, the shortest first.
fn refresh_along(
    sites: &[Site],
    gone: &[bool],
    nodes: &mut [SiteNode],
    stretch: Stretch,
    place: usize,
)
    requires inside { stretch.end ≤ length sites.now }
    requires sized { length nodes.old ≡ length sites.now }
    requires right { All (IsRightNode sites.now gone.now) nodes.old }
    ensures sized { length nodes.new ≡ length nodes.old }
    ensures right { All (IsRightNode sites.now gone.now) nodes.new }
{
    if is_short(stretch) {
        return;
    }
    let middle = middle_of(stretch);
    let (half, _) = halves(stretch, middle, middle <= place);
    refresh_along(sites, gone, nodes, half, place);
    refresh(sites, gone, nodes, stretch);
}

/// Marks a chain.
pub(crate) fn mark(tree: &mut SiteTree, chain: usize)
    requires tree { IsSiteTree tree.old }
    requires inside { chain < length tree.old.gone.items }
    ensures tree { IsSiteTree tree.new }
    ensures sites { tree.new.sites.items ≡ tree.old.sites.items }
    ensures gone { tree.new.gone.items ≡ slice_set tree.old.gone.items chain true }
{
    tree.gone[chain] = true;
    let place = tree.places.get(chain).copied().unwrap_or(0);
    let whole = Stretch {
        first: 0,
        end: tree.sites.len(),
    };
    refresh_along(&tree.sites, &tree.gone, &mut tree.nodes, whole, place);
}
