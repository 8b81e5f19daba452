//! Leaves of small lists of edges, told as the closed lines that they run along.

use crate::cutting::{directed, run_along};
use coast_split::{Leaf, Leaves, Settings, SplitError, count_leaves};
use std::alloc::Global;
use std::test::Fail;

/// Ways to split, with an overlap that stays far below the greatest.
fn settings(most_points: u32, overlap: u16, most_leaves: u64) -> Settings {
    Settings {
        most_points,
        overlap: u32::from(overlap),
        most_leaves,
    }
}

/// Whether a leaf runs along these closed lines, and is large where they end in ` large`, and only there.
fn is_leaf(leaf: &Leaf, wanted: &str) -> bool {
    match wanted.split_once(" large") {
        Some((lines, _)) => leaf.large && run_along(&leaf.edges, lines),
        None => !leaf.large && run_along(&leaf.edges, wanted),
    }
}

/// Whether leaves are these, parted by `|`, in their order.
fn are_leaves(leaves: &[Leaf], wanted: &str) -> bool {
    let mut count = 0;
    for lines in wanted.split('|') {
        match leaves.get(count) {
            Some(leaf) if is_leaf(leaf, lines) => count += 1,
            Some(_) | None => return false,
        }
    }
    count == leaves.len()
}

/// The leaves of the list along closed lines, as they are handed out. No list here has more than eight.
fn leaves_along(alloc: Global, lines: &str, settings: &Settings) -> Result<Vec<Leaf>, Fail> {
    let mut leaves = Leaves::of(alloc, directed(alloc, lines)?, settings)?;
    let mut list = Vec::new(alloc);
    for _ in 0..9 {
        let Some(leaf) = leaves.next()? else {
            return Ok(list);
        };
        list.push(leaf)?;
    }
    Err(Fail::new("too many leaves"))
}

/// Whether the leaves of a list are counted as so many where these are no more than allowed, and refused where they are.
fn keeps_to(alloc: Global, lines: &str, settings: &Settings, count: u64) -> Result<bool, Fail> {
    let edges = directed(alloc, lines)?;
    let most = settings.most_leaves;
    match count_leaves(alloc, &edges, settings) {
        Ok(counted) => Ok(count <= most && counted == count),
        Err(SplitError::TooManyPieces { most: told }) => Ok(most < count && told == most),
        Err(SplitError::OutOfMemory) => Err(Fail::new("no memory")),
    }
}

/// Whether the list along closed lines has these leaves, and as many are counted.
fn has_leaves(alloc: Global, lines: &str, settings: &Settings, wanted: &str) -> Result<bool, Fail> {
    let leaves = leaves_along(alloc, lines, settings)?;
    Ok(are_leaves(&leaves, wanted) && keeps_to(alloc, lines, settings, leaves.len() as u64)?)
}

#[test]
fn lists_that_are_cut(rt: HostRuntime) -> Result<(), Fail> {
    let rows = [
        // broken at a touched node
        (
            "0,0 8,0 8,8 0,8 4,4 0,0",
            4,
            0,
            "0,0 4,0 4,4 0,0|4,4 4,8 0,8 4,4|4,0 8,0 8,8 4,8 4,0",
        ),
        (
            "0,0 8,0 8,4 8,8 0,8 4,4 0,0",
            5,
            0,
            "0,0 4,0 4,4 0,0|4,4 4,8 0,8 4,4|4,0 8,0 8,4 8,8 4,8 4,0",
        ),
        // exact cuts
        (
            "0,0 25,0 100,0 100,3 0,2 0,0",
            4,
            0,
            "0,0 25,0 25,9/4 0,2 0,0|25,0 50,0 50,5/2 25,9/4 25,0|50,0 100,0 100,3 50,5/2 50,0",
        ),
        (
            "0,0 80,0 80,20 60,30 20,30 0,20 0,0",
            5,
            5,
            "0,0 45,0 45,30 20,30 0,20 0,0|35,0 80,0 80,20 60,30 35,30 35,0",
        ),
    ];
    for (lines, most_points, overlap, wanted) in rows {
        let settings = settings(most_points, overlap, 4_194_304);
        assert!(rt;
            has_leaves(rt.alloc(), lines, &settings, wanted)?,
            "{lines}"
        );
    }
    Ok(())
}

/// A closed line round what lies between 0 and 8 high. Below it has a point at each even x, and one at each corner.
fn row(alloc: Global, from: i32, to: i32) -> Result<String, Fail> {
    let mut line = String::new(alloc);
    for x in from..=to {
        if x == from || x == to || x % 2 == 0 {
            let place = format!(in alloc; " {x},0")?;
            line.push_str(&place)?;
        }
    }
    let above = format!(in alloc; " {to},8 {from},8 {from},0")?;
    line.push_str(&above)?;
    Ok(line)
}

#[test]
fn long_lists_that_are_cut(rt: HostRuntime) -> Result<(), Fail> {
    // 203 edges, which are cut in batches: of most of them all edges are kept, or none
    let whole = row(rt.alloc(), 0, 400)?;
    // at a point without overlap, beside points, at points
    for (overlap, low_end, high_start) in [(0, 200, 200), (5, 205, 195), (10, 210, 190)] {
        let low = row(rt.alloc(), 0, low_end)?;
        let high = row(rt.alloc(), high_start, 400)?;
        let wanted = format!(in rt.alloc(); "{low}|{high}")?;
        assert!(rt;
            has_leaves(
                rt.alloc(),
                &whole,
                &settings(150, overlap, 4_194_304),
                &wanted
            )?,
            "{overlap}"
        );
    }
    Ok(())
}

#[test]
fn long_lists_that_are_cut_twice(rt: HostRuntime) -> Result<(), Fail> {
    let whole = row(rt.alloc(), 0, 400)?;
    let first = row(rt.alloc(), 0, 100)?;
    let second = row(rt.alloc(), 100, 200)?;
    let third = row(rt.alloc(), 200, 300)?;
    let fourth = row(rt.alloc(), 300, 400)?;
    let wanted = format!(in rt.alloc(); "{first}|{second}|{third}|{fourth}")?;
    assert!(rt; has_leaves(rt.alloc(), &whole, &settings(60, 0, 4_194_304), &wanted)?);
    Ok(())
}

#[test]
fn slivers_and_sides_that_are_cut(rt: HostRuntime) -> Result<(), Fail> {
    let rows = [
        // vanishing sliver
        (
            "0,0 8,0 8,1 7,2 6,2 1,3 5,4 0,5 0,4 0,2 0,0",
            9,
            0,
            "0,0 4,0 4,12/5 1,3 4,15/4 4,21/5 0,5 0,4 0,2 0,0|4,0 8,0 8,1 7,2 6,2 4,12/5 4,0; 4,15/4 5,4 4,21/5 4,15/4",
        ),
        // sides of one length are cut at x, a longer y at y, and a middle between two units at the lesser
        (
            "0,0 4,0 8,0 8,8 0,8 0,0",
            4,
            0,
            "0,0 4,0 4,8 0,8 0,0|4,0 8,0 8,8 4,8 4,0",
        ),
        (
            "0,-6 8,-6 8,5 0,5 0,-1 0,-6",
            4,
            0,
            "0,-6 8,-6 8,-1 0,-1 0,-6|0,-1 8,-1 8,5 0,5 0,-1",
        ),
    ];
    for (lines, most_points, overlap, wanted) in rows {
        let settings = settings(most_points, overlap, 4_194_304);
        assert!(rt;
            has_leaves(rt.alloc(), lines, &settings, wanted)?,
            "{lines}"
        );
    }
    Ok(())
}

#[test]
fn lists_that_stay_whole(rt: HostRuntime) -> Result<(), Fail> {
    let touched = "0,0 8,0 8,8 0,8 4,4 0,0";
    let short = "0,0 2,0 3,1 2,3 0,2 0,0";
    let rows = [
        // too short to cut
        (short, 4, 0, "0,0 2,0 3,1 2,3 0,2 0,0 large"),
        (short, 5, 0, short),
        (short, 0, 0, short),
        (touched, 5, 0, touched),
        (touched, 0, 0, touched),
        // 8 overlaps are longer than the list
        (touched, 4, 2, "0,0 8,0 8,8 0,8 4,4 0,0 large"),
        // they are as long as the list, and longer than its halves' halves
        (
            touched,
            4,
            1,
            "0,0 5,0 5,5 3,5 4,4 0,0 large|3,3 5,3 5,8 0,8 4,4 3,3 large|3,0 8,0 8,5 3,5 4,4 3,3 3,0 large|3,3 8,3 8,8 3,8 3,5 4,4 3,3 large",
        ),
    ];
    for (lines, most_points, overlap, wanted) in rows {
        let settings = settings(most_points, overlap, 4);
        assert!(rt;
            has_leaves(rt.alloc(), lines, &settings, wanted)?,
            "{most_points} {overlap} {lines}"
        );
    }
    Ok(())
}

#[test]
fn too_many_leaves(rt: HostRuntime) -> Result<(), Fail> {
    let lines = "0,0 8,0 8,8 0,8 4,4 0,0";
    for (most_points, most, count) in [
        (4, 0, 3),
        (4, 1, 3),
        (4, 2, 3),
        (4, 3, 3),
        (5, 0, 1),
        (5, 1, 1),
    ] {
        assert!(rt;
            keeps_to(rt.alloc(), lines, &settings(most_points, 0, most), count)?,
            "{most_points} {most}"
        );
    }
    Ok(())
}
