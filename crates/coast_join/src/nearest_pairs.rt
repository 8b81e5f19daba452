//! Which pairs of ends and starts of unclosed chains are taken: the nearest ones first.
//!
//! Consider only ends and starts that are not taken. A pair may be taken at any time if its start is the nearest to its end
//! and its end the nearest to its start. So the order in which such pairs are found is not proved.

ghost use Rattle.std.specs.Prelude.{◌≡◌, ◌↔◌, ◌<◌, ◌≤◌, ℕ, All, AllPairs, Contains, IfOk, IfSome, List, MatchOption, OnOk, false, map, true};
ghost use Rattle.std.specs.List.Sorted.{IsPermutation};
ghost use Rattle.lists.specs.Rising.{IsRising};
ghost use Rattle.coast_join.specs.declared.closing.OpenEnds.{OpenEnds};
ghost use Rattle.coast_join.specs.declared.gap.Gap.{Gap};
ghost use Rattle.coast_join.specs.declared.sites.Site.{Site};
ghost use Rattle.coast_join.specs.Closings.{near_pairs};
ghost use Rattle.coast_join.specs.GapSteps.{gap_cmp};
ghost use Rattle.coast_join.specs.Matches.{HasMatched, IsChoice, IsFarFromStarts, IsFurther, IsMutual, IsNearPair, IsNearestStart, end_site, matched_gap, start_site, unmarked, weight};
ghost use Rattle.coast_join.specs.Sites.{is_gone};
ghost use Rattle.coast_join.specs.SiteTrees.{IsSiteTree};
ghost use Rattle.coast_join.specs.Taken.{AreTaken, IsFree, TakenAreOne};

use crate::closing::OpenEnds;
use crate::gap::{Gap, Gaps};
use crate::site_order::site_tree;
use crate::site_tree::{SiteTree, mark, nearest};
use crate::sites::{Near, Site, is_gone, square};
use lists::distinct_items;
use osm_geom::Loc;
use std::alloc::{AllocError as OutOfMemory, Global};

/// An end, and the start that is the nearest to it.
#[derive(Clone, Copy)]
pub(crate) struct Match {
    pub(crate) from: Site,
    pub(crate) to: Near,
}

/// How far the choice has come: the ends and starts, the ends from which to look next, and the pairs that are taken.
#[derive(Drop)]
pub(crate) struct Matching {
    pub(crate) ends: SiteTree,
    pub(crate) starts: SiteTree,
    pub(crate) waiting: Vec<Site>,
    pub(crate) gaps: Vec<Gap>,
}

/// The end that is nearer to the start of a pair, with the start that is the nearest to it, if there is one.
fn nearer_match(ends: &SiteTree, starts: &SiteTree, pair: Match) -> Option<Match>
    requires ends { IsSiteTree ends.now }
    requires starts { IsSiteTree starts.now }
    requires choice { IsChoice ends.now starts.now pair }
    ensures none { MatchOption result (IsMutual ends.now starts.now pair)
        (IsChoice ends.now starts.now) }
    ensures less { IfSome result (λ next. weight next < weight pair) }
    ensures square { IfSome result (λ next. next.to.square ≤ pair.to.square) }
{
    let to = pair.to;
    let back = nearest(
        ends,
        to.site.at,
        Near {
            square: to.square,
            site: pair.from,
        },
    );
    if back.square == to.square && back.site.chain == pair.from.chain {
        return None;
    }
    let next = nearest(
        starts,
        back.site.at,
        Near {
            square: back.square,
            site: to.site,
        },
    );
    Some(Match {
        from: back.site,
        to: next,
    })
}

/// A pair that is the nearest both ways, searched from a pair that is so one way.
///
/// The ends on the way are left to be looked at later.
fn mutual_match(
    ends: &SiteTree,
    starts: &SiteTree,
    waiting: &mut Vec<Site>,
    from: Match,
) -> Result<Match, OutOfMemory>
    requires ends { IsSiteTree ends.now }
    requires starts { IsSiteTree starts.now }
    requires choice { IsChoice ends.now starts.now from }
    ensures mutual { IfOk result (IsMutual ends.now starts.now) }
    ensures square { IfOk result (λ pair. pair.to.square ≤ from.to.square) }
    ensures waiting { All (Contains ends.now.sites.items) waiting.old.items
        → OnOk result (All (Contains ends.now.sites.items) waiting.new.items) }
{
    let mut pair = from;
    while let Some(next) = nearer_match(ends, starts, pair) {
        waiting.push(pair.from)?;
        pair = next;
    }
    Ok(pair)
}

/// The pair as a gap.
fn gap_of(pair: Match) -> Gap
    ensures { result ≡ matched_gap pair }
{
    Gap {
        square: pair.to.square,
        from_chain: pair.from.chain,
        to_chain: pair.to.site.chain,
    }
}

/// The start that is the nearest to a location, if it is nearer than the limit.
fn nearest_start(starts: &SiteTree, limit: u32, at: Loc) -> Option<Near>
    requires { IsSiteTree starts.now }
    ensures { MatchOption result (IsFarFromStarts starts.now limit at)
        (IsNearestStart starts.now limit at) }
{
    let limit = square(limit);
    let none = Near {
        square: limit,
        site: Site { at, chain: 0 },
    };
    let best = nearest(starts, at, none);
    if best.square < limit {
        Some(best)
    } else {
        None
    }
}

/// Takes one pair, found from this end, or puts the end aside because no start is near it.
fn settle_one(matching: &mut Matching, limit: u32, from: Site) -> Result<(), OutOfMemory>
    requires matched { HasMatched limit matching.old }
    requires stands { Contains matching.old.ends.sites.items from }
    requires free { is_gone matching.old.ends.gone.items from ≡ false }
    ensures matched { OnOk result (HasMatched limit matching.new) }
    ensures further { OnOk result (IsFurther matching.old matching.new) }
    ensures fewer { OnOk result (unmarked matching.new < unmarked matching.old) }
{
    let Some(to) = nearest_start(&matching.starts, limit, from.at) else {
        mark(&mut matching.ends, from.chain);
        return Ok(());
    };
    let pair = mutual_match(
        &matching.ends,
        &matching.starts,
        &mut matching.waiting,
        Match { from, to },
    )?;
    matching.gaps.push(gap_of(pair))?;
    mark(&mut matching.ends, pair.from.chain);
    mark(&mut matching.starts, pair.to.site.chain);
    Ok(())
}

/// The end that was left last, among those whose chains are not marked; this one, if there is none.
fn next_end(waiting: &mut Vec<Site>, gone: &[bool], end: Site) -> Site
    requires { is_gone gone.now end ≡ false }
    ensures among { (sites : List Site) → All (Contains sites) waiting.old.items
        → Contains sites end → Contains sites result }
    ensures rest { (sites : List Site) → All (Contains sites) waiting.old.items
        → All (Contains sites) waiting.new.items }
    ensures free { is_gone gone.now result ≡ false }
{
    while let Some(site) = waiting.pop() {
        if !is_gone(gone, site) {
            return site;
        }
    }
    end
}

/// Goes on until an end is taken or put aside.
fn settle(matching: &mut Matching, limit: u32, end: Site) -> Result<(), OutOfMemory>
    requires matched { HasMatched limit matching.old }
    requires stands { Contains matching.old.ends.sites.items end }
    ensures matched { OnOk result (HasMatched limit matching.new) }
    ensures further { OnOk result (IsFurther matching.old matching.new) }
    ensures gone { OnOk result (is_gone matching.new.ends.gone.items end ≡ true) }
{
    while !is_gone(&matching.ends.gone, end) {
        let from = next_end(&mut matching.waiting, &matching.ends.gone, end);
        settle_one(matching, limit, from)?;
    }
    Ok(())
}

/// Goes on until each end is taken or put aside.
fn settle_all(matching: &mut Matching, limit: u32) -> Result<(), OutOfMemory>
    requires { HasMatched limit matching.old }
    ensures matched { OnOk result (HasMatched limit matching.new) }
    ensures further { OnOk result (IsFurther matching.old matching.new) }
    ensures gone { OnOk result (All (λ s. is_gone matching.new.ends.gone.items s ≡ true)
        matching.new.ends.sites.items) }
{
    for place in 0..matching.ends.sites.len() {
        let end = matching.ends.sites[place];
        settle(matching, limit, end)?;
    }
    Ok(())
}

/// The ends of chains.
fn end_sites(alloc: Global, ends: &[OpenEnds]) -> Result<Vec<Site>, OutOfMemory>
    ensures { IfOk result (λ v. v.items ≡ map end_site ends.now) }
{
    ends.iter()
        .map(|of| Site {
            at: of.end,
            chain: of.chain,
        })
        .collect(alloc)
}

/// The starts of chains.
fn start_sites(alloc: Global, ends: &[OpenEnds]) -> Result<Vec<Site>, OutOfMemory>
    ensures { IfOk result (λ v. v.items ≡ map start_site ends.now) }
{
    ends.iter()
        .map(|of| Site {
            at: of.start,
            chain: of.chain,
        })
        .collect(alloc)
}

/// The ends and starts of chains, of which none is taken.
fn matching_of(alloc: Global, ends: &[OpenEnds], chains: usize) -> Result<Matching, OutOfMemory>
    requires inside { All (λ (e : OpenEnds). e.chain < chains) ends.now }
    requires rising { AllPairs (λ (e f : OpenEnds). e.chain < f.chain) ends.now }
    ensures matched { IfOk result (λ m. (limit : ℕ) → HasMatched limit m) }
    ensures ends { IfOk result (λ m. IsPermutation (map end_site ends.now) m.ends.sites.items) }
    ensures starts { IfOk result (λ m. IsPermutation (map start_site ends.now)
        m.starts.sites.items) }
{
    let ended = site_tree(alloc, end_sites(alloc, ends)?, chains)?;
    let started = site_tree(alloc, start_sites(alloc, ends)?, chains)?;
    Ok(Matching {
        ends: ended,
        starts: started,
        waiting: Vec::new(alloc),
        gaps: Vec::new(alloc),
    })
}

/// The pairs that are taken, in order.
fn matched_gaps(alloc: Global, limit: u32, matching: &mut Matching) -> Result<Gaps, OutOfMemory>
    requires { HasMatched limit matching.old }
    ensures rising { IfOk result (λ v. IsRising gap_cmp v) }
    ensures exact { IfOk result (λ v. (g : Gap) → Contains v g
        ↔ (IsNearPair limit matching.old.ends.sites.items matching.old.starts.sites.items g
        × IsFree gap_cmp v g)) }
{
    settle_all(matching, limit)?;
    let gaps = distinct_items(alloc, &matching.gaps)?;
    Ok(Gaps::from_vec(gaps))
}

/// The pairs of an end and a start that are nearer than the limit and free of nearer taken pairs.
///
/// A pair is taken if no nearer taken pair has its end or its start. Fails only if memory runs out.
pub(crate) fn nearest_pairs(
    alloc: Global,
    limit: u32,
    ends: &[OpenEnds],
    chains: usize,
) -> Result<Gaps, OutOfMemory>
    requires inside { All (λ (e : OpenEnds). e.chain < chains) ends.now }
    requires rising { AllPairs (λ (e f : OpenEnds). e.chain < f.chain) ends.now }
    ensures { IfOk result (λ v. AreTaken gap_cmp (near_pairs limit ends.now) v) }
{
    let mut matching = matching_of(alloc, ends, chains)?;
    matched_gaps(alloc, limit, &mut matching)
}

/// A law: for pairs of chains whose names rise, there is at most one list of those that are taken.
pub fn taken_pairs_are_determined()
    ensures { TakenAreOne }
{}
