//! How the tree over sites is made.

ghost use Rattle.std.specs.Prelude.{◌≡◌, ◌+◌, ◌<◌, ◌≤◌, All, Bool, IfOk, List, false, length};
ghost use Rattle.std.specs.List.Sorted.{IsPermutation};
ghost use Rattle.coast_join.specs.SiteTrees.{IsRightNode, IsSiteTree};

use crate::bounds::{Bounds, bounds_of};
use crate::site_tree::{SiteNode, SiteTree, Stretch, is_short, middle_of};
use crate::sites::Site;
use std::alloc::{AllocError as OutOfMemory, Global};

/// Sorts sites by the coordinate in which they reach farther, and equal ones by their chains.
fn sort(sites: &mut [Site])
    ensures { IsPermutation sites.old sites.new }
{
    if bounds_of(sites).is_wide() {
        sites.sort_unstable_by_key(|site| (site.at.x, site.chain));
    } else {
        sites.sort_unstable_by_key(|site| (site.at.y, site.chain));
    }
}

/// Puts the sites in such an order that the sites of each stretch that is halved are near each other.
fn arrange(sites: &mut [Site])
    ensures { IsPermutation sites.old sites.new }
{
    if sites.len() < 2 {
        return;
    }
    sort(sites);
    let middle = sites.len() / 2;
    let (first, second) = sites.split_at_mut(middle);
    arrange(first);
    arrange(second);
}

/// What is known of a stretch.
fn node_of(sites: &[Site], stretch: Stretch) -> SiteNode
    requires order { stretch.first ≤ stretch.end }
    requires inside { stretch.end ≤ length sites.now }
    ensures { (gone : List Bool) → IsRightNode sites.now gone result }
{
    SiteNode {
        stretch,
        bounds: bounds_of(&sites[stretch.first..stretch.end]),
        spent: false,
    }
}

/// Writes down what is known of a stretch, at its middle.
fn tell_one(nodes: &mut [SiteNode], sites: &[Site], stretch: Stretch)
    requires long { stretch.first + 1 < stretch.end }
    requires inside { stretch.end ≤ length sites.now }
    requires sized { length nodes.old ≡ length sites.now }
    requires right { (gone : List Bool) → All (IsRightNode sites.now gone) nodes.old }
    ensures sized { length nodes.new ≡ length nodes.old }
    ensures right { (gone : List Bool) → All (IsRightNode sites.now gone) nodes.new }
{
    nodes[middle_of(stretch)] = node_of(sites, stretch);
}

/// Writes down what is known of a stretch and of all that it is halved into.
fn tell(nodes: &mut [SiteNode], sites: &[Site], stretch: Stretch)
    requires inside { stretch.end ≤ length sites.now }
    requires sized { length nodes.old ≡ length sites.now }
    requires right { (gone : List Bool) → All (IsRightNode sites.now gone) nodes.old }
    ensures sized { length nodes.new ≡ length nodes.old }
    ensures right { (gone : List Bool) → All (IsRightNode sites.now gone) nodes.new }
{
    if is_short(stretch) {
        return;
    }
    let middle = middle_of(stretch);
    tell_one(nodes, sites, stretch);
    let first = Stretch {
        first: stretch.first,
        end: middle,
    };
    let second = Stretch {
        first: middle,
        end: stretch.end,
    };
    tell(nodes, sites, first);
    tell(nodes, sites, second);
}

/// What is known of the stretches of sites.
fn nodes_of(alloc: Global, sites: &[Site]) -> Result<Vec<SiteNode>, OutOfMemory>
    ensures sized { IfOk result (λ v. length v.items ≡ length sites.now) }
    ensures right { IfOk result (λ v. (gone : List Bool)
        → All (IsRightNode sites.now gone) v.items) }
{
    let unknown = SiteNode {
        stretch: Stretch { first: 0, end: 0 },
        bounds: Bounds::none(),
        spent: false,
    };
    let mut nodes = vec![in alloc; unknown; sites.len()]?;
    let whole = Stretch {
        first: 0,
        end: sites.len(),
    };
    tell(&mut nodes, sites, whole);
    Ok(nodes)
}

/// The place of the site of each chain: the last one of several. Nothing that is proved depends on it.
fn places_of(alloc: Global, sites: &[Site], chains: usize) -> Result<Vec<usize>, OutOfMemory> {
    let mut places = vec![in alloc; 0; chains]?;
    for (place, site) in sites.iter().enumerate() {
        if site.chain < places.len() {
            places[site.chain] = place;
        }
    }
    Ok(places)
}

/// The tree over sites of `chains` chains, none of which is marked.
pub(crate) fn site_tree(
    alloc: Global,
    mut sites: Vec<Site>,
    chains: usize,
) -> Result<SiteTree, OutOfMemory>
    ensures tree { IfOk result (λ tree. IsSiteTree tree) }
    ensures sites { IfOk result (λ tree. IsPermutation sites.items tree.sites.items) }
    ensures sized { IfOk result (λ tree. length tree.gone.items ≡ chains) }
    ensures unmarked { IfOk result (λ tree. All (λ b. b ≡ false) tree.gone.items) }
{
    arrange(&mut sites);
    let nodes = nodes_of(alloc, &sites)?;
    let places = places_of(alloc, &sites, chains)?;
    let gone = vec![in alloc; false; chains]?;
    Ok(SiteTree {
        sites,
        nodes,
        gone,
        places,
    })
}
