//! How many lines a coastline job writes, counted leaf by leaf.

ghost use Rattle.std.specs.Prelude.{◌≡◌, ◌+◌, ◌∷◌, [], All, IfOk, List, length};
ghost use Rattle.std.specs.List.{count_by};
ghost use Rattle.coast_split.specs.LeavesLeft.{AreLeft};
ghost use Rattle.coast_split.specs.declared.leaves.Leaf.{Leaf};
ghost use Rattle.job_coastline.specs.Counts.{AreCoastCounts};
ghost use Rattle.job_coastline.specs.CountSteps.{CountsLeaves, CountsLists, CountsOutlines, warnings_among};
ghost use Rattle.osm_geom.specs.InPlane.Sided.{IsSided};
ghost use Rattle.osm_text.specs.Coast.{is_error};
ghost use Rattle.osm_words.specs.Answers.{coastline_seen};

use crate::outlines::{Outlines, outlines_of};
use crate::pieces::{Pieces, pieces_of};
use coast_join::coast_input;
use coast_split::{Leaf, Leaves, Settings};
use osm_geom::Edges;
use osm_objects::Store;
use osm_text::{CoastLine, PieceKind, is_error};
use osm_words::CoastlineSettings;
use std::alloc::{AllocError as OutOfMemory, Global};

/// How many lines a coastline job writes.
#[derive(Clone, Copy, Debug, PartialEq, Eq)]
pub struct CoastCounts {
    /// Pieces of land.
    pub land: u64,
    /// Pieces of water.
    pub water: u64,
    /// Report lines that are warnings.
    pub warnings: u64,
    /// Report lines that are errors.
    pub errors: u64,
}

/// What is counted so far.
#[derive(Clone, Copy)]
pub(crate) struct Tally {
    /// Pieces of the one kind.
    pub(crate) pieces: u64,
    /// Report lines that are warnings.
    pub(crate) warnings: u64,
    /// Report lines that are errors.
    pub(crate) errors: u64,
}

/// How many lines are errors.
fn errors_in(lines: &[CoastLine]) -> usize
    ensures { result ≡ count_by is_error lines.now }
{
    lines.iter().filter(|line| is_error(line)).count()
}

/// How many lines are warnings.
fn warnings_in(lines: &[CoastLine]) -> usize
    ensures { result ≡ warnings_among lines.now }
{
    lines.iter().filter(|line| !is_error(line)).count()
}

/// A count with more. No memory holds so much that it passes the greatest number.
fn with_more(count: u64, more: usize) -> Result<u64, OutOfMemory>
    ensures { IfOk result (λ sum. sum ≡ count + more) }
{
    count.checked_add(more as u64).ok_or(OutOfMemory)
}

/// A tally with the pieces and report lines of one more leaf.
fn with_pieces(tally: Tally, pieces: &Pieces) -> Result<Tally, OutOfMemory>
    ensures { IfOk result (λ after.
        (after.pieces ≡ tally.pieces + length pieces.now.texts.items)
        × (after.warnings ≡ tally.warnings + warnings_among pieces.now.lines.items)
        × (after.errors ≡ tally.errors + count_by is_error pieces.now.lines.items)) }
{
    let printed = with_more(tally.pieces, pieces.texts.len())?;
    let warnings = with_more(tally.warnings, warnings_in(&pieces.lines))?;
    let errors = with_more(tally.errors, errors_in(&pieces.lines))?;
    Ok(Tally {
        pieces: printed,
        warnings,
        errors,
    })
}

/// Counts what a leaf makes, which goes.
fn count_leaf(
    alloc: Global,
    kind: PieceKind,
    leaf: Leaf,
    tally: Tally,
) -> Result<Tally, OutOfMemory>
    requires { IsSided leaf.edges }
    ensures { IfOk result (λ after. CountsLeaves kind (leaf ∷ []) tally after) }
{
    let pieces = pieces_of(alloc, kind, leaf)?;
    with_pieces(tally, &pieces)
}

/// More leaves than any run goes through.
const ANY_NUMBER: u64 = 18_446_744_073_709_551_615;

/// Counts what leaves make, each before the next one is cut out.
fn count_leaves_of(
    alloc: Global,
    kind: PieceKind,
    leaves: &mut Leaves,
    tally: Tally,
) -> Result<Tally, OutOfMemory>
    ensures { IfOk result (λ after. (list : List Leaf)
        × AreLeft leaves.old.most_points leaves.old.overlap leaves.old.waiting list
        × CountsLeaves kind list tally after) }
{
    let mut now = tally;
    for _ in 0..ANY_NUMBER {
        let next = leaves.next()?;
        match next {
            Some(leaf) => now = count_leaf(alloc, kind, leaf, now)?,
            None => return Ok(now),
        }
    }
    Err(OutOfMemory)
}

/// Splits a list and counts what its leaves make.
fn count_list(
    alloc: Global,
    kind: PieceKind,
    edges: Edges,
    settings: &CoastlineSettings<'_>,
    tally: Tally,
) -> Result<Tally, OutOfMemory>
    requires { IsSided edges }
    ensures { IfOk result (λ after. CountsLists (coastline_seen settings.now) kind (edges ∷ [])
        tally after) }
{
    let settings = Settings {
        most_points: settings.max_points,
        overlap: settings.bbox_overlap,
        most_leaves: ANY_NUMBER,
    };
    let mut leaves = Leaves::of(alloc, edges, &settings)?;
    count_leaves_of(alloc, kind, &mut leaves, tally)
}

/// Counts what lists make. A list goes before the next one is split.
fn count_lists(
    alloc: Global,
    kind: PieceKind,
    lists: Vec<Edges>,
    settings: &CoastlineSettings<'_>,
    tally: Tally,
) -> Result<Tally, OutOfMemory>
    requires { All IsSided lists.items }
    ensures { IfOk result (λ after. CountsLists (coastline_seen settings.now) kind lists.items
        tally after) }
{
    let mut now = tally;
    for edges in lists {
        match count_list(alloc, kind, edges, settings, now) {
            Ok(after) => now = after,
            Err(error) => return Err(error),
        }
    }
    Ok(now)
}

/// The report lines of the coast, counted.
fn tally_of(lines: &[CoastLine]) -> Tally
    ensures pieces { result.pieces ≡ 0 }
    ensures warnings { result.warnings ≡ warnings_among lines.now }
    ensures errors { result.errors ≡ count_by is_error lines.now }
{
    Tally {
        pieces: 0,
        warnings: warnings_in(lines) as u64,
        errors: errors_in(lines) as u64,
    }
}

/// How many lines come of outlines.
fn counts_of(
    alloc: Global,
    outlines: Outlines,
    settings: &CoastlineSettings<'_>,
) -> Result<CoastCounts, OutOfMemory>
    requires land { All IsSided outlines.land.items }
    requires water { All IsSided outlines.water.items }
    ensures { IfOk result (λ counts.
        CountsOutlines (coastline_seen settings.now) outlines counts) }
{
    let Outlines { land, water, lines } = outlines;
    let coast = tally_of(&lines);
    let land = count_lists(alloc, PieceKind::Land, land, settings, coast)?;
    let none = Tally { pieces: 0, ..land };
    let water = count_lists(alloc, PieceKind::Water, water, settings, none)?;
    Ok(CoastCounts {
        land: land.pieces,
        water: water.pieces,
        warnings: water.warnings,
        errors: water.errors,
    })
}

/// How many lines a coastline job with these settings writes of a store. The most leaves of a run don't matter here. The error
/// is want of memory.
pub fn coast_counts(
    alloc: Global,
    store: &Store,
    settings: &CoastlineSettings<'_>,
) -> Result<CoastCounts, OutOfMemory>
    ensures { IfOk result (λ counts.
        AreCoastCounts (coastline_seen settings.now) store.now counts) }
{
    let input = coast_input(alloc, store)?;
    let outlines = outlines_of(alloc, input, settings)?;
    counts_of(alloc, outlines, settings)
}
