//! The pieces of one leaf: its edges make polygons, and those are printed.

ghost use Rattle.std.specs.Prelude.{◌≡◌, ◌+◌, ◌++◌, [], IfOk, OnOk, length, map, option_map};
ghost use Rattle.std.specs.List.{flat_map, sum_by};
ghost use Rattle.job_coastline.specs.Pieces.{large_lines, piece_text_count, polygon_text, text_count, text_or_nothing, vanished_line, vanished_lines};
ghost use Rattle.job_coastline.specs.PieceSteps.{Adds, ArePiecesOf};
ghost use Rattle.osm_job.specs.Sent.{lines_text};
ghost use Rattle.osm_geom.specs.InPlane.Sided.{IsSided};

use coast_split::Leaf;
use osm_geom::Loc;
use osm_nest::{Polygon, polygons};
use osm_text::{CoastLine, PieceKind, piece_text};
use std::alloc::{AllocError as OutOfMemory, Global};

/// What is to be written of a leaf.
#[derive(Drop)]
pub(crate) struct Pieces {
    /// The lines of the output, one for each polygon of the leaf that is printed.
    pub(crate) texts: Vec<Vec<u8>>,
    /// The lines of the report.
    pub(crate) lines: Vec<CoastLine>,
}

/// Of each ring that vanishes, in order.
fn vanished_lines(alloc: Global, rings: &[Loc]) -> Result<Vec<CoastLine>, OutOfMemory>
    ensures { IfOk result (λ v. v.items ≡ map vanished_line rings.now) }
{
    rings
        .iter()
        .map(|&at| CoastLine::Vanished { at })
        .collect(alloc)
}

/// Adds a line of the output, if there is one.
fn add_text(texts: &mut Vec<Vec<u8>>, text: Option<Vec<u8>>) -> Result<(), OutOfMemory>
    ensures written { OnOk result (lines_text texts.new.items ≡ lines_text texts.old.items
        ++ text_or_nothing (option_map (λ text. text.items) text)) }
    ensures printed { OnOk result (length texts.new.items ≡ length texts.old.items
        + text_count (option_map (λ text. text.items) text)) }
{
    if let Some(text) = text {
        texts.push(text)?;
    }
    Ok(())
}

/// Adds the line of a polygon, if its outer ring is left, and names its rings that vanish.
fn add_polygon(
    alloc: Global,
    kind: PieceKind,
    polygon: &Polygon,
    pieces: &mut Pieces,
) -> Result<(), OutOfMemory>
    ensures { OnOk result (Adds pieces.old pieces.new (polygon_text kind polygon.now)
        (piece_text_count kind polygon.now) (vanished_lines polygon.now)) }
{
    let piece = piece_text(alloc, kind, polygon)?;
    let vanished = vanished_lines(alloc, piece.vanished.as_slice())?;
    pieces.lines.extend_from_slice(&vanished)?;
    add_text(&mut pieces.texts, piece.text)
}

/// Adds polygons, in order.
fn add_polygons(
    alloc: Global,
    kind: PieceKind,
    polygons: &[Polygon],
    pieces: &mut Pieces,
) -> Result<(), OutOfMemory>
    ensures { OnOk result (Adds pieces.old pieces.new (flat_map (polygon_text kind) polygons.now)
        (sum_by (piece_text_count kind) polygons.now) (flat_map vanished_lines polygons.now)) }
{
    for polygon in polygons {
        add_polygon(alloc, kind, polygon, pieces)?;
    }
    Ok(())
}

/// Tells of a leaf that is large.
fn add_large(leaf: &Leaf, pieces: &mut Pieces) -> Result<(), OutOfMemory>
    ensures { OnOk result (Adds pieces.old pieces.new [] 0 (large_lines leaf.now)) }
{
    if leaf.large {
        pieces.lines.push(CoastLine::Large {
            points: leaf.edges.as_slice().len() as u64,
        })?;
    }
    Ok(())
}

/// Adds what a leaf makes. Its edges go before its polygons are printed.
fn add_leaf(
    alloc: Global,
    kind: PieceKind,
    leaf: Leaf,
    pieces: &mut Pieces,
) -> Result<(), OutOfMemory>
    requires sided { IsSided leaf.edges }
    requires texts { pieces.old.texts.items ≡ [] }
    requires lines { pieces.old.lines.items ≡ [] }
    ensures { OnOk result (ArePiecesOf kind leaf pieces.new) }
{
    add_large(&leaf, pieces)?;
    let polygons = polygons(alloc, leaf.edges)?;
    add_polygons(alloc, kind, polygons.as_slice(), pieces)
}

/// What a leaf makes, which goes.
pub(crate) fn pieces_of(alloc: Global, kind: PieceKind, leaf: Leaf) -> Result<Pieces, OutOfMemory>
    requires { IsSided leaf.edges }
    ensures { IfOk result (λ pieces. ArePiecesOf kind leaf pieces) }
{
    let mut pieces = Pieces {
        texts: Vec::new(alloc),
        lines: Vec::new(alloc),
    };
    add_leaf(alloc, kind, leaf, &mut pieces)?;
    Ok(pieces)
}
