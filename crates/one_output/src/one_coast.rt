//! What a coastline job must write is a function of its settings and of the objects of its input.
//!
//! It exists, and it is one. Other laws say what the leaves of land and of water cover, and that their polygons are valid.
//! There is no code to run here. The contract of each function is a law about the definitions of `job_coastline`.

ghost use Rattle.one_output.specs.OneCoast.ClearCoasts.{ClearCoastsStay};
ghost use Rattle.one_output.specs.OneCoast.Cover.{LandLeavesCover, LandLeavesPart, LeavesPartTheWorld, WaterLeavesCover, WaterLeavesPart};
ghost use Rattle.one_output.specs.OneCoast.Laws.{CoastCountsAreOne, CoastCountsExist, CoastExists, CoastIsOne, CoastlineExists, CoastlineIsOne};
ghost use Rattle.one_output.specs.OneCoast.Pieces.{CoastsAreValid, PiecesAreValid, PiecesArePolygons};

use coast_join::{
    chains_are_determined, chains_exist, closings_are_determined, closings_exist, coast_ways_exist,
    joined_exists, joined_is_determined,
};
use coast_sides::{
    clear_rings_stay, land_and_water_cover, land_exists, land_is_one, sorting_exists,
    sorting_is_one, water_exists, water_is_one,
};
use coast_split::{
    halves_are_determined, leaves_cover_as_list, leaves_part_the_list, split_trees_exist,
};
use job_coastline::{lines_have_kinds, pieces_exist};
use osm_nest::valid_polygons::nested_polygons_are_valid;
use osm_nest::{nested_cover_as_rings, nested_have_kinds, polygons_are_one, rings_may_be_nested};
use osm_text::coast_line_is_one;

/// The coastline ways of objects have at most one coast.
///
/// It is what keeps ways from taking part, chains, closings, rings, what is sorted out, and land.
pub fn coast_is_one()
    ensures { CoastIsOne }
{
    chains_are_determined();
    closings_are_determined();
    joined_is_determined();
    sorting_is_one();
    land_is_one();
}

/// There is at most one thing that a coastline job must write, and one ending.
pub fn coastline_is_one()
    ensures { CoastlineIsOne }
{
    coast_is_one();
    lines_have_kinds();
    coast_line_is_one();
    polygons_are_one();
    water_is_one();
    rings_may_be_nested();
    nested_cover_as_rings();
    halves_are_determined();
    leaves_cover_as_list();
}

/// The numbers of lines that it writes are one too, for any number of leaves.
pub fn coast_counts_are_one()
    ensures { CoastCountsAreOne }
{
    coast_is_one();
    polygons_are_one();
    water_is_one();
    rings_may_be_nested();
    nested_cover_as_rings();
    halves_are_determined();
    leaves_cover_as_list();
}

/// If no two coastline ways have one id, there is a coast.
pub fn coast_exists()
    ensures { CoastExists }
{
    coast_ways_exist();
    chains_exist();
    closings_exist();
    joined_exists();
    sorting_exists();
    land_exists();
}

/// Then there is something that a coastline job must write.
pub fn coastline_exists()
    ensures { CoastlineExists }
{
    coast_exists();
    lines_have_kinds();
    pieces_exist();
    rings_may_be_nested();
    water_exists();
    nested_cover_as_rings();
    split_trees_exist();
    leaves_cover_as_list();
}

/// Then there are also the numbers of lines that it writes.
pub fn coast_counts_exist()
    ensures { CoastCountsExist }
{
    coast_exists();
    pieces_exist();
    rings_may_be_nested();
    water_exists();
    nested_cover_as_rings();
    split_trees_exist();
    leaves_cover_as_list();
}

/// If no two segments of rings conflict, cutting crossings changes neither the output nor the report nor the ending.
pub fn clear_coasts_stay()
    ensures { ClearCoastsStay }
{
    clear_rings_stay();
    sorting_exists();
    land_exists();
}

/// What the leaves cover together.
///
/// If land is asked for, some leaf of land covers a point off the edges of its leaves exactly if the parity of the kept
/// rings' segments is 1. If water is asked for, some leaf of water covers such a whole point strictly within the world
/// exactly if that parity is 0.
pub fn leaves_cover_the_coast()
    ensures land { LandLeavesCover }
    ensures water { WaterLeavesCover }
{
    leaves_cover_as_list();
    rings_may_be_nested();
    nested_cover_as_rings();
    land_and_water_cover();
}

/// Without an overlap the leaves part the coast: off their edges no two leaves of land cover one point, nor two of water.
///
/// If both are asked for, exactly one leaf covers each such whole point strictly within the world.
pub fn leaves_part_the_coast()
    ensures land { LandLeavesPart }
    ensures water { WaterLeavesPart }
    ensures world { LeavesPartTheWorld }
{
    leaves_part_the_list();
    rings_may_be_nested();
    nested_cover_as_rings();
    land_and_water_cover();
}

/// The polygons of each leaf, before they are rounded.
///
/// Anchors decide which rings are outer and which inner, and each inner one is under the outer one that directly encloses
/// it. Together the polygons cover each point exactly as the leaf does, once or not at all.
pub fn pieces_are_polygons()
    ensures { PiecesArePolygons }
{
    leaves_cover_as_list();
    rings_may_be_nested();
    nested_have_kinds();
    nested_cover_as_rings();
}

/// The polygons of land, those of water, and those of each leaf are valid MultiPolygons before they are rounded.
///
/// They are multiplied by a number that makes their points whole.
pub fn coasts_are_valid()
    ensures whole { CoastsAreValid }
    ensures pieces { PiecesAreValid }
{
    nested_polygons_are_valid();
    rings_may_be_nested();
    nested_cover_as_rings();
    leaves_cover_as_list();
}
