//! What a half is to the list that it is cut from.
ghost use Rattle.coast_split.specs.HalfLaws.{HalfIsSided, HalfKeepsCount, HalfIsEmptyBeyond, HalfIsOne, HalvesExist, LeafCover, LeavesAddAlongCuts, LeavesAreSided, LeavesKeepEdges, LeavesPart, SplitShrinks, TreeIsOne};
ghost use Rattle.coast_split.specs.TreeLaws.{SplitNarrows, SplitTreesAreShallow, SplitTreesExist};

use plane_lists::path_laws::edge_parts_inside;

/// The half of a sided list is sided.
pub fn half_of_sided_list_is_sided()
    ensures { HalfIsSided }
{}

/// The half has the list's signed count at points off the list and strictly on the kept side.
///
/// At points strictly on the other side it has 0.
pub fn half_counts_as_list()
    ensures kept { HalfKeepsCount }
    ensures beyond { HalfIsEmptyBeyond }
{}

/// Each list has a half on each side of each line, whether or not there is memory for it.
pub fn halves_exist()
    ensures { HalvesExist }
{}

/// Leaf cover: however often a sided list is split, its leaves are sided.
///
/// Some leaf covers a point exactly if the list covers it, for each point off the edges of the leaves, also on the lines of
/// the cuts.
pub fn leaves_cover_as_list()
    ensures sided { LeavesAreSided }
    ensures cover { LeafCover }
{
    edge_parts_inside();
}

/// The edges of leaves: they have all edges of the list, and others only along the lines of the cuts.
pub fn leaves_have_edges()
    ensures kept { LeavesKeepEdges }
    ensures added { LeavesAddAlongCuts }
{
    edge_parts_inside();
}

/// Without an overlap the leaves part the list.
///
/// A point off their edges is in one leaf if the list covers it, and otherwise in none.
pub fn leaves_part_the_list()
    ensures { LeavesPart }
{
    edge_parts_inside();
}

/// A list has at most one half on a side of a line, and so at most one split tree: its leaves are determined.
///
/// The halves of a list that is cut have a smaller envelope, by the sum of its sides.
pub fn halves_are_determined()
    ensures half { HalfIsOne }
    ensures tree { TreeIsOne }
    ensures shrinks { SplitShrinks }
{}

/// A list has a split tree, so it has leaves.
pub fn split_trees_exist()
    ensures { SplitTreesExist }
{
    halves_exist();
}

/// Each cut leaves halves that have at most five eighths of the longer side and one unit.
///
/// On the other side they are no longer than the list. So no branch of a split tree has 120 cuts.
pub fn split_trees_are_shallow()
    ensures narrows { SplitNarrows }
    ensures depth { SplitTreesAreShallow }
{}
