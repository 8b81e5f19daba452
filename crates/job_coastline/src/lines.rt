//! The lines of the report: one of each thing that is amiss, and how a run ends that has such lines.

ghost use Rattle.std.specs.Prelude.{◌≡◌, IfOk, map};
ghost use Rattle.std.specs.List.{filter_map, list_any};
ghost use Rattle.job_coastline.specs.Report.{antarctica_line, aside_line, conflict_line, cut_line, ending_of, gap_line, left_out_line, repeated_line, unclosed_line, wrong_way_line};
ghost use Rattle.osm_text.specs.Coast.{is_error};

use coast_join::{Aside, Chain, Gap};
use coast_rings::CoastRing;
use coast_sides::Cut;
use osm_job::Ended;
use osm_segments::{Pair, Repeat};
use osm_text::{CoastLine, is_error};
use std::alloc::{AllocError as OutOfMemory, Global};

/// What keeps a way from taking part.
fn aside_line(aside: Aside) -> CoastLine
    ensures { result ≡ aside_line aside }
{
    match aside {
        Aside::Missing { way, node } => CoastLine::Missing { way, node },
        Aside::Short { way } => CoastLine::Short { way },
    }
}

/// Of each of these, in order.
pub(crate) fn aside_lines(alloc: Global, asides: &[Aside]) -> Result<Vec<CoastLine>, OutOfMemory>
    ensures { IfOk result (λ v. v.items ≡ map aside_line asides.now) }
{
    asides.iter().map(|&aside| aside_line(aside)).collect(alloc)
}

/// The chain at a place is closed round Antarctica.
fn antarctica_line(chains: &[Chain], place: usize) -> Option<CoastLine>
    ensures { result ≡ antarctica_line chains.now place }
{
    match chains.get(place) {
        Some(chain) => Some(CoastLine::Antarctica { chain: chain.name }),
        None => None,
    }
}

/// Of the chains at each of these places, in order.
pub(crate) fn antarctica_lines(
    alloc: Global,
    chains: &[Chain],
    places: &[usize],
) -> Result<Vec<CoastLine>, OutOfMemory>
    ensures { IfOk result (λ v. v.items ≡ filter_map (antarctica_line chains.now) places.now) }
{
    places
        .iter()
        .filter_map(|&place| antarctica_line(chains, place))
        .collect(alloc)
}

/// A gap is closed.
fn gap_line(chains: &[Chain], gap: Gap) -> Option<CoastLine>
    ensures { result ≡ gap_line chains.now gap }
{
    match (chains.get(gap.from_chain), chains.get(gap.to_chain)) {
        (Some(from), Some(to)) => Some(CoastLine::Gap {
            end_at: from.last(),
            start_at: to.first(),
        }),
        (Some(_), None) | (None, Some(_)) | (None, None) => None,
    }
}

/// Of each of these, in order.
pub(crate) fn gap_lines(
    alloc: Global,
    chains: &[Chain],
    gaps: &[Gap],
) -> Result<Vec<CoastLine>, OutOfMemory>
    ensures { IfOk result (λ v. v.items ≡ filter_map (gap_line chains.now) gaps.now) }
{
    gaps.iter()
        .filter_map(|&gap| gap_line(chains, gap))
        .collect(alloc)
}

/// A chain is still unclosed.
fn unclosed_line(chain: &Chain) -> CoastLine
    ensures { result ≡ unclosed_line chain.now }
{
    CoastLine::Unclosed {
        chain: chain.name,
        start_at: chain.first(),
        end_at: chain.last(),
    }
}

/// Of each of these, in order.
pub(crate) fn unclosed_lines(alloc: Global, chains: &[Chain]) -> Result<Vec<CoastLine>, OutOfMemory>
    ensures { IfOk result (λ v. v.items ≡ map unclosed_line chains.now) }
{
    chains
        .iter()
        .map(|chain| unclosed_line(chain))
        .collect(alloc)
}

/// Of each run of locations that was cut out of a ring, in order.
pub(crate) fn cut_lines(alloc: Global, cuts: &[Cut]) -> Result<Vec<CoastLine>, OutOfMemory>
    ensures { IfOk result (λ v. v.items ≡ map cut_line cuts.now) }
{
    cuts.iter()
        .map(|cut| CoastLine::Cut {
            ring: cut.ring,
            from: cut.from,
            to: cut.to,
        })
        .collect(alloc)
}

/// Of each ring that is left out, in order.
pub(crate) fn left_out_lines(
    alloc: Global,
    rings: &[CoastRing],
) -> Result<Vec<CoastLine>, OutOfMemory>
    ensures { IfOk result (λ v. v.items ≡ map left_out_line rings.now) }
{
    rings
        .iter()
        .map(|ring| CoastLine::LeftOut { ring: ring.name })
        .collect(alloc)
}

/// Of each conflict, in order.
pub(crate) fn conflict_lines(alloc: Global, pairs: &[Pair]) -> Result<Vec<CoastLine>, OutOfMemory>
    ensures { IfOk result (λ v. v.items ≡ map conflict_line pairs.now) }
{
    pairs
        .iter()
        .map(|pair| CoastLine::Conflict {
            kind: pair.kind,
            first: pair.first,
            second: pair.second,
        })
        .collect(alloc)
}

/// Of each segment that stands more than once, in order.
pub(crate) fn repeated_lines(
    alloc: Global,
    repeats: &[Repeat],
) -> Result<Vec<CoastLine>, OutOfMemory>
    ensures { IfOk result (λ v. v.items ≡ map repeated_line repeats.now) }
{
    repeats
        .iter()
        .map(|repeat| CoastLine::Repeated {
            seg: repeat.seg,
            times: repeat.times,
        })
        .collect(alloc)
}

/// Of each ring that runs the wrong way, in order.
pub(crate) fn wrong_way_lines(alloc: Global, names: &[i64]) -> Result<Vec<CoastLine>, OutOfMemory>
    ensures { IfOk result (λ v. v.items ≡ map wrong_way_line names.now) }
{
    names
        .iter()
        .map(|&ring| CoastLine::WrongWay { ring })
        .collect(alloc)
}

/// Whether some line is an error.
fn has_errors(lines: &[CoastLine]) -> bool
    ensures { result ≡ list_any is_error lines.now }
{
    lines.iter().any(|line| is_error(line))
}

/// How a run ends that has these lines: with errors, with warnings alone, or without both.
pub(crate) fn ending_of(lines: &[CoastLine]) -> Ended
    ensures { result ≡ ending_of lines.now }
{
    if has_errors(lines) {
        return Ended::Errors;
    }
    if lines.is_empty() {
        Ended::Done
    } else {
        Ended::Warnings
    }
}
