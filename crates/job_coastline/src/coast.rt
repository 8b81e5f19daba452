//! What comes of the coastline ways of an input, step by step: chains, gaps, rings, land.
//!
//! Each step gives back what the one before it left. What is kept besides land are the lines of the report.

ghost use Rattle.std.specs.Prelude.{◌≡◌, ◌++◌, IfOk, List, OnOk, map};
ghost use Rattle.std.specs.List.{IsDistinct, filter_map};
ghost use Rattle.std.specs.Ordering.{int_eq};
ghost use Rattle.coast_join.specs.Chains.{AreChains};
ghost use Rattle.coast_join.specs.declared.way.CoastWay.{CoastWay};
ghost use Rattle.coast_sides.specs.Land.{HaveNoConflicts};
ghost use Rattle.coast_sides.specs.KeptSegments.{AreKeptSegments};
ghost use Rattle.coast_sides.specs.Segments.{all_segments};
ghost use Rattle.coast_sides.specs.CutSorting.{IsSortedWith, NamesOfRingsRise};
ghost use Rattle.job_coastline.specs.CoastSteps.{IsInputOf, JoinsChains, MakesCoast, MakesLand};
ghost use Rattle.job_coastline.specs.LandSteps.{KeepsLand};
ghost use Rattle.job_coastline.specs.OutlineSteps.{IsShoreOf};
ghost use Rattle.job_coastline.specs.Report.{antarctica_line, aside_line, conflict_line, cut_line, gap_line, left_out_line, repeated_line, unclosed_line, wrong_way_line};
ghost use Rattle.osm_words.specs.Answers.{coastline_seen};

use crate::lines::{
    antarctica_lines, aside_lines, conflict_lines, cut_lines, gap_lines, left_out_lines,
    repeated_lines, unclosed_lines, wrong_way_lines,
};
use coast_join::{
    Chain, Closings, CoastInput, Joined, chains, closed_rings, closings, coast_input,
};
use coast_rings::CoastRing;
use coast_sides::{KeptSegments, Land, Sorted, cut_and_sort_out, land, sort_out};
use osm_geom::Edges;
use osm_objects::Store;
use osm_text::CoastLine;
use osm_words::CoastlineSettings;
use std::alloc::{AllocError as OutOfMemory, Global};

/// What is left of what comes of the coastline ways.
#[derive(Drop)]
pub(crate) struct Shore {
    /// The edges of land.
    pub(crate) land: Edges,
    /// The lines of the report, but for those of leaves.
    pub(crate) lines: Vec<CoastLine>,
}

/// The coastline ways of a store, which goes.
pub(crate) fn input_of(alloc: Global, store: Store) -> Result<CoastInput, OutOfMemory>
    ensures { IfOk result (λ input. IsInputOf store input) }
{
    coast_input(alloc, &store)
}

/// The chains of the ways that take part. Lines tell of those that don't.
fn chains_of(
    alloc: Global,
    input: CoastInput,
    lines: &mut Vec<CoastLine>,
) -> Result<Vec<Chain>, OutOfMemory>
    requires { IsDistinct int_eq (map (λ (w : CoastWay). w.id) input.ways) }
    ensures chains { IfOk result (λ chains. AreChains input.ways chains.items) }
    ensures told { OnOk result (lines.new.items ≡ lines.old.items ++ map aside_line input.aside) }
{
    lines.extend_from_slice(&aside_lines(alloc, input.aside.as_slice())?)?;
    chains(alloc, input.ways.as_slice())
}

/// Lines tell of chains that are closed.
fn add_closings(
    alloc: Global,
    chains: &[Chain],
    closings: &Closings,
    lines: &mut Vec<CoastLine>,
) -> Result<(), OutOfMemory>
    ensures { OnOk result (lines.new.items ≡ lines.old.items
        ++ (filter_map (antarctica_line chains.now) closings.now.antarctica
        ++ filter_map (gap_line chains.now) closings.now.gaps)) }
{
    let antarctica = antarctica_lines(alloc, chains, closings.antarctica.as_slice())?;
    lines.extend_from_slice(&antarctica)?;
    let gaps = gap_lines(alloc, chains, closings.gaps.as_slice())?;
    lines.extend_from_slice(&gaps)?;
    Ok(())
}

/// The rings of chains with their gaps closed, and the chains that are still unclosed.
fn joined_of(
    alloc: Global,
    chains: Vec<Chain>,
    limit: u32,
    lines: &mut Vec<CoastLine>,
) -> Result<Joined, OutOfMemory>
    requires { (ways : List CoastWay) × AreChains ways chains.items }
    ensures { IfOk result (λ joined. JoinsChains chains.items limit joined
        lines.old.items lines.new.items) }
{
    let closings = closings(alloc, &chains, limit)?;
    add_closings(alloc, &chains, &closings, lines)?;
    closed_rings(alloc, &chains, &closings)
}

/// The rings sorted out, with their crossings cut or not, and the segments of those kept. Lines tell of chains that are still
/// unclosed.
fn sorted_of(
    alloc: Global,
    joined: Joined,
    cut_crossings: bool,
    lines: &mut Vec<CoastLine>,
) -> Result<(Sorted, KeptSegments), OutOfMemory>
    requires { NamesOfRingsRise joined.rings }
    ensures sorted { IfOk result (λ out. IsSortedWith cut_crossings joined.rings out.0) }
    ensures clear { IfOk result (λ out. HaveNoConflicts (all_segments out.0.kept)) }
    ensures segments { IfOk result (λ out. AreKeptSegments out.0.kept out.1) }
    ensures told { OnOk result (lines.new.items
        ≡ lines.old.items ++ map unclosed_line joined.unclosed) }
{
    lines.extend_from_slice(&unclosed_lines(alloc, joined.unclosed.as_slice())?)?;
    if cut_crossings {
        return cut_and_sort_out(alloc, joined.rings.as_slice());
    }
    sort_out(alloc, joined.rings.as_slice())
}

/// Lines tell of what was cut out of rings, of rings that are left out, and of conflicts.
fn add_sorted(alloc: Global, sorted: &Sorted, lines: &mut Vec<CoastLine>) -> Result<(), OutOfMemory>
    ensures { OnOk result (lines.new.items ≡ lines.old.items
        ++ (map cut_line sorted.now.cuts
        ++ (map left_out_line sorted.now.left_out ++ map conflict_line sorted.now.pairs))) }
{
    lines.extend_from_slice(&cut_lines(alloc, sorted.cuts.as_slice())?)?;
    lines.extend_from_slice(&left_out_lines(alloc, sorted.left_out.as_slice())?)?;
    lines.extend_from_slice(&conflict_lines(alloc, sorted.pairs.as_slice())?)?;
    Ok(())
}

/// Lines tell of segments that stand more than once, and of rings that run the wrong way.
fn add_land(alloc: Global, land: &Land, lines: &mut Vec<CoastLine>) -> Result<(), OutOfMemory>
    ensures { OnOk result (lines.new.items ≡ lines.old.items
        ++ (map repeated_line land.now.repeats ++ map wrong_way_line land.now.wrong_way)) }
{
    lines.extend_from_slice(&repeated_lines(alloc, land.repeats.as_slice())?)?;
    lines.extend_from_slice(&wrong_way_lines(alloc, land.wrong_way.as_slice())?)?;
    Ok(())
}

/// The edges of land of kept rings with these segments. Lines tell of segments that stand more than once, and of rings that run the
/// wrong way.
fn kept_land(
    alloc: Global,
    kept: &[CoastRing],
    segs: KeptSegments,
    lines: &mut Vec<CoastLine>,
) -> Result<Edges, OutOfMemory>
    requires clear { HaveNoConflicts (all_segments kept.now) }
    requires segments { AreKeptSegments kept.now segs }
    ensures { IfOk result (λ edges. KeepsLand kept.now edges lines.old.items lines.new.items) }
{
    let land = land(alloc, kept, segs)?;
    add_land(alloc, &land, lines)?;
    Ok(land.edges)
}

/// The edges of land of rings that are sorted out. Lines tell of all that is amiss with rings.
fn sorted_land(
    alloc: Global,
    sorted: &Sorted,
    segs: KeptSegments,
    lines: &mut Vec<CoastLine>,
) -> Result<Edges, OutOfMemory>
    requires clear { HaveNoConflicts (all_segments sorted.now.kept) }
    requires segments { AreKeptSegments sorted.now.kept segs }
    ensures { IfOk result (λ edges. MakesLand sorted.now edges lines.old.items lines.new.items) }
{
    add_sorted(alloc, sorted, lines)?;
    kept_land(alloc, sorted.kept.as_slice(), segs, lines)
}

/// The same. What was sorted out goes.
fn land_of(
    alloc: Global,
    sorted: Sorted,
    segs: KeptSegments,
    lines: &mut Vec<CoastLine>,
) -> Result<Edges, OutOfMemory>
    requires clear { HaveNoConflicts (all_segments sorted.kept) }
    requires segments { AreKeptSegments sorted.kept segs }
    ensures { IfOk result (λ edges. MakesLand sorted edges lines.old.items lines.new.items) }
{
    sorted_land(alloc, &sorted, segs, lines)
}

/// The edges of land that come of coastline ways. Lines tell of all that is amiss with them.
fn land_in(
    alloc: Global,
    input: CoastInput,
    settings: &CoastlineSettings<'_>,
    lines: &mut Vec<CoastLine>,
) -> Result<Edges, OutOfMemory>
    requires { IsDistinct int_eq (map (λ (w : CoastWay). w.id) input.ways) }
    ensures { IfOk result (λ edges. MakesCoast (coastline_seen settings.now) input edges
        lines.old.items lines.new.items) }
{
    let chains = chains_of(alloc, input, lines)?;
    let joined = joined_of(alloc, chains, settings.close_distance, lines)?;
    let (sorted, segs) = sorted_of(alloc, joined, settings.cut_crossings, lines)?;
    land_of(alloc, sorted, segs, lines)
}

/// What is left of what comes of coastline ways.
pub(crate) fn shore_of(
    alloc: Global,
    input: CoastInput,
    settings: &CoastlineSettings<'_>,
) -> Result<Shore, OutOfMemory>
    requires { IsDistinct int_eq (map (λ (w : CoastWay). w.id) input.ways) }
    ensures { IfOk result (λ shore. IsShoreOf (coastline_seen settings.now) input shore) }
{
    let mut lines = Vec::new(alloc);
    let land = land_in(alloc, input, settings, &mut lines)?;
    Ok(Shore { land, lines })
}
