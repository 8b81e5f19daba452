//! What the job writes: the pieces of land, leaf by leaf, then those of water, and behind them the lines of the report.

ghost use Rattle.std.specs.Prelude.{◌≡◌, ◌≤◌, ◌∷◌, [], All, List, length};
ghost use Rattle.coast_split.specs.LeavesLeft.{AreLeft};
ghost use Rattle.coast_split.specs.declared.leaves.Leaf.{Leaf};
ghost use Rattle.job_coastline.specs.Coastline.{most_leaves};
ghost use Rattle.job_coastline.specs.OutlineSteps.{HaveFewTogether};
ghost use Rattle.job_coastline.specs.PieceLaws.{HaveSidedEdges};
ghost use Rattle.job_coastline.specs.WriteSteps.{WroteLeaves, WroteOutlines, WroteReport};
ghost use Rattle.osm_geom.specs.InPlane.Sided.{IsSided};
ghost use Rattle.osm_text.specs.Coast.{HasItsKind};
ghost use Rattle.osm_words.specs.Answers.{coastline_seen};

use crate::counting::MOST_LEAVES;
use crate::laws::pieces_exist;
use crate::lines::ending_of;
use crate::outlines::Outlines;
use crate::pieces::pieces_of;
use coast_split::{Leaf, Leaves, Settings};
use osm_geom::Edges;
use osm_host::Host;
use osm_job::{Ended, write_pieces, write_report};
use osm_text::{CoastLine, PieceKind, coast_line};
use osm_words::CoastlineSettings;
use std::alloc::Global;

/// Why a run is broken off after its output was opened.
#[derive(Clone, Copy, Debug, PartialEq, Eq)]
pub(crate) enum BrokenOff {
    /// A write failed.
    WriteFault,
    /// Memory ran out.
    OutOfMemory,
}

/// Writes what a leaf makes, and keeps its report lines. The leaf goes.
fn write_leaf<H: Host>(
    alloc: Global,
    kind: PieceKind,
    leaf: Leaf,
    lines: &mut Vec<CoastLine>,
    host: &mut H,
) -> Result<(), BrokenOff>
    requires { IsSided leaf.edges }
    ensures { WroteLeaves kind (leaf ∷ []) lines.old.items lines.new.items
        (H.seen host.old) (H.seen host.new) result }
{
    // By law: where memory runs out the leaf has its pieces all the same.
    pieces_exist();
    let Ok(pieces) = pieces_of(alloc, kind, leaf) else {
        return Err(BrokenOff::OutOfMemory);
    };
    let Ok(()) = write_pieces(host, &pieces.texts) else {
        return Err(BrokenOff::WriteFault);
    };
    let Ok(()) = lines.extend_from_slice(&pieces.lines) else {
        return Err(BrokenOff::OutOfMemory);
    };
    Ok(())
}

/// Writes what leaves make, each before the next one is cut out.
fn write_leaves<H: Host>(
    alloc: Global,
    kind: PieceKind,
    leaves: &mut Leaves,
    lines: &mut Vec<CoastLine>,
    host: &mut H,
) -> Result<(), BrokenOff>
    ensures { (list : List Leaf)
        → AreLeft leaves.old.most_points leaves.old.overlap leaves.old.waiting list
        → HaveSidedEdges list → length list ≤ most_leaves
        → WroteLeaves kind list lines.old.items lines.new.items
        (H.seen host.old) (H.seen host.new) result }
{
    // By law: the leaves behind one that isn't written have their pieces too.
    pieces_exist();
    for _ in 0..MOST_LEAVES {
        let next = match leaves.next() {
            Ok(next) => next,
            Err(_) => return Err(BrokenOff::OutOfMemory),
        };
        let Some(leaf) = next else {
            return Ok(());
        };
        if let Err(broken) = write_leaf(alloc, kind, leaf, lines, host) {
            return Err(broken);
        }
    }
    Ok(())
}

/// Splits a list and writes what its leaves make.
fn write_list<H: Host>(
    alloc: Global,
    kind: PieceKind,
    edges: Edges,
    settings: &CoastlineSettings<'_>,
    lines: &mut Vec<CoastLine>,
    host: &mut H,
) -> Result<(), BrokenOff>
    requires { IsSided edges }
    ensures { (list : List Leaf)
        → AreLeft settings.now.max_points settings.now.bbox_overlap (edges ∷ []) list
        → length list ≤ most_leaves
        → WroteLeaves kind list lines.old.items lines.new.items
        (H.seen host.old) (H.seen host.new) result }
{
    pieces_exist();
    let settings = Settings {
        most_points: settings.max_points,
        overlap: settings.bbox_overlap,
        most_leaves: MOST_LEAVES,
    };
    let Ok(mut leaves) = Leaves::of(alloc, edges, &settings) else {
        return Err(BrokenOff::OutOfMemory);
    };
    write_leaves(alloc, kind, &mut leaves, lines, host)
}

/// Writes what lists make, one after the other. A list goes before the next one is split.
fn write_lists<H: Host>(
    alloc: Global,
    kind: PieceKind,
    lists: Vec<Edges>,
    settings: &CoastlineSettings<'_>,
    lines: &mut Vec<CoastLine>,
    host: &mut H,
) -> Result<(), BrokenOff>
    requires { All IsSided lists.items }
    ensures { (list : List Leaf)
        → AreLeft settings.now.max_points settings.now.bbox_overlap lists.items list
        → length list ≤ most_leaves
        → WroteLeaves kind list lines.old.items lines.new.items
        (H.seen host.old) (H.seen host.new) result }
{
    // By law: the leaves of lists behind one that isn't written have their pieces too.
    pieces_exist();
    for edges in lists {
        if let Err(broken) = write_list(alloc, kind, edges, settings, lines, host) {
            return Err(broken);
        }
    }
    Ok(())
}

/// Writes a line of the report.
fn write_line<H: Host>(alloc: Global, line: &CoastLine, host: &mut H) -> Result<(), BrokenOff>
    requires { HasItsKind line.now }
    ensures { WroteReport (line.now ∷ []) (H.seen host.old) (H.seen host.new) result }
{
    // By law: where memory runs out the line has its text all the same.
    pieces_exist();
    let Ok(text) = coast_line(alloc, line) else {
        return Err(BrokenOff::OutOfMemory);
    };
    let Ok(()) = write_report(host, &text) else {
        return Err(BrokenOff::WriteFault);
    };
    Ok(())
}

/// Writes the lines of the report, in order.
fn write_lines<H: Host>(alloc: Global, lines: &[CoastLine], host: &mut H) -> Result<(), BrokenOff>
    requires { All HasItsKind lines.now }
    ensures { WroteReport lines.now (H.seen host.old) (H.seen host.new) result }
{
    // By law: the lines behind one that isn't written have their texts too.
    pieces_exist();
    for line in lines {
        if let Err(broken) = write_line(alloc, line, host) {
            return Err(broken);
        }
    }
    Ok(())
}

/// Writes all: land, then water, then the report. It answers how the run ends.
pub(crate) fn write_coast<H: Host>(
    alloc: Global,
    outlines: Outlines,
    settings: &CoastlineSettings<'_>,
    host: &mut H,
) -> Result<Ended, BrokenOff>
    requires land { All IsSided outlines.land.items }
    requires water { All IsSided outlines.water.items }
    requires kinds { All HasItsKind outlines.lines.items }
    requires few { HaveFewTogether (coastline_seen settings.now)
        outlines.land.items outlines.water.items }
    ensures { WroteOutlines (coastline_seen settings.now) outlines
        (H.seen host.old) (H.seen host.new) result }
{
    // By law: what isn't written is there all the same.
    pieces_exist();
    let Outlines {
        land,
        water,
        mut lines,
    } = outlines;
    if let Err(broken) = write_lists(alloc, PieceKind::Land, land, settings, &mut lines, host) {
        return Err(broken);
    }
    if let Err(broken) = write_lists(alloc, PieceKind::Water, water, settings, &mut lines, host) {
        return Err(broken);
    }
    if let Err(broken) = write_lines(alloc, &lines, host) {
        return Err(broken);
    }
    Ok(ending_of(&lines))
}
