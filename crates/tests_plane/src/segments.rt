//! What conflicts among segments and ends oddly, on small lists and on long ones.

use crate::reading::{at, segment, segs};
use osm_lattice::{Kind, Seg};
use osm_segments::{
    Pair, Places, conflict_places, conflicts, distinct, odd_nodes, outline_of, pair_at, survivors,
};
use std::alloc::Global;
use std::test::Fail;

/// The conflicts among the survivors of lines.
fn conflicts_along(alloc: Global, lines: &str) -> Result<Vec<Pair>, Fail> {
    let list = survivors(alloc, &segs(alloc, lines)?)?;
    Ok(conflicts(alloc, &list)?)
}

/// Pairs of the segments of lines, two by two, each an overlap where its word is `o`.
fn pairs_of(alloc: Global, lines: &str, kinds: &str) -> Result<Vec<Pair>, Fail> {
    let segs = segs(alloc, lines)?;
    let mut rest = segs.as_slice();
    let mut pairs = Vec::new(alloc);
    for word in kinds.split_whitespace() {
        if let [first, second, later @ ..] = rest {
            let kind = if word == "o" {
                Kind::Overlap
            } else {
                Kind::Crossing
            };
            pairs.push(Pair {
                kind,
                first: *first,
                second: *second,
            })?;
            rest = later;
        }
    }
    Ok(pairs)
}

/// Whether the survivors of lines conflict in these pairs.
fn conflict_so(alloc: Global, lines: &str, pairs: &str, kinds: &str) -> Result<bool, Fail> {
    let wanted = pairs_of(alloc, pairs, kinds)?;
    let found = conflicts_along(alloc, lines)?;
    Ok(found.as_slice() == wanted.as_slice())
}

/// What lines show, the lines, the pairs of their survivors that conflict, and how each does.
const CONFLICTS: [(&str, &str, &str, &str); 6] = [
    (
        "bow tie",
        "0,0 10000000,10000000 10000000,0 0,5000000 0,0",
        "0,0 10000000,10000000 / 10000000,0 0,5000000",
        "x",
    ),
    (
        "overlapping base",
        "0,0 4,0 4,4 0,4 0,0 / 1,0 3,0 2,2 1,0",
        "0,0 4,0 / 1,0 3,0 / 0,0 4,0 / 1,0 2,2 / 0,0 4,0 / 3,0 2,2",
        "o x x",
    ),
    (
        "whole world",
        "-1800000000,-900000000 1800000000,900000000 1800000000,-900000000 -1800000000,900000000 -1800000000,-900000000",
        "-1800000000,-900000000 1800000000,900000000 / 1800000000,-900000000 -1800000000,900000000",
        "x",
    ),
    (
        "touching triangle",
        "0,0 4,0 4,4 0,4 0,0 1,2 2,1 0,0",
        "",
        "",
    ),
    (
        "sweep window",
        "10,0 10,2 / 20,0 20,1 / 0,1 100,1 / 50,1 60,1 / 100,1 100,3 / 30,2 30,4",
        "10,0 10,2 / 0,1 100,1 / 20,0 20,1 / 0,1 100,1 / 0,1 100,1 / 50,1 60,1",
        "x x o",
    ),
    (
        "a node with segments from below and above",
        "0,0 5,5 10,0 / 2,9 5,5 9,9 / 5,0 5,5 5,9 / 4,1 6,1",
        "5,0 5,5 / 4,1 6,1",
        "x",
    ),
];

#[test]
fn conflicts_of_survivors(rt: HostRuntime) -> Result<(), Fail> {
    for &(name, lines, pairs, kinds) in &CONFLICTS {
        assert!(rt; conflict_so(rt.alloc(), lines, pairs, kinds)?, "{name}");
    }
    Ok(())
}

/// Segments, and the conflicts that are due among them.
#[derive(Drop)]
struct Case {
    segs: Vec<Seg>,
    pairs: Vec<Pair>,
}

impl Case {
    /// No segments.
    fn new(alloc: Global) -> Case {
        Case {
            segs: Vec::new(alloc),
            pairs: Vec::new(alloc),
        }
    }

    /// Adds the segment between two points.
    fn add(&mut self, from: (i64, i64), to: (i64, i64)) -> Result<Seg, Fail> {
        let seg = segment(at(from.0, from.1)?, at(to.0, to.1)?)?;
        self.segs.push(seg)?;
        Ok(seg)
    }

    /// Adds a conflict of two segments, whichever is the lesser.
    fn due(&mut self, kind: Kind, s: Seg, t: Seg) -> Result<(), Fail> {
        self.pairs.push(Pair {
            kind,
            first: s.min(t),
            second: s.max(t),
        })?;
        Ok(())
    }

    /// Adds two segments that cross, far from all others.
    fn add_cross(&mut self) -> Result<(), Fail> {
        let first = self.add((-30, -40), (-20, -30))?;
        let second = self.add((-20, -40), (-30, -30))?;
        self.due(Kind::Crossing, first, second)
    }

    /// Whether just these conflicts are found.
    fn is_found(&self, alloc: Global) -> Result<bool, Fail> {
        let segs = distinct(alloc, &self.segs)?;
        let places = conflict_places(alloc, &segs)?;
        Ok(are_at(&segs, &places, &self.pairs))
    }
}

/// Whether these pairs are at the places.
fn are_at(segs: &[Seg], places: &[Places], pairs: &[Pair]) -> bool {
    places.len() == pairs.len()
        && places
            .iter()
            .zip(pairs)
            .all(|(at, pair)| pair_at(segs, *at) == Some(*pair))
}

/// A segment, given from the foot of a post 4 high, and how it conflicts with the post.
#[derive(Clone, Copy)]
struct Beside {
    from: (i32, i32),
    to: (i32, i32),
    kind: Option<Kind>,
}

/// Adds a post and the segment beside it.
fn add_post(case: &mut Case, x: i64, beside: Beside) -> Result<(), Fail> {
    let (from, to) = (beside.from, beside.to);
    let left = x.saturating_add(i64::from(from.0));
    let right = x.saturating_add(i64::from(to.0));
    let post = case.add((x, 0), (x, 4))?;
    let other = case.add((left, i64::from(from.1)), (right, i64::from(to.1)))?;
    match beside.kind {
        Some(kind) => case.due(kind, post, other),
        None => Ok(()),
    }
}

/// Posts at every tenth x, each with a segment beside it, and far from them two segments that cross.
fn posts(alloc: Global, beside: Beside, count: u32) -> Result<Case, Fail> {
    let mut case = Case::new(alloc);
    case.add_cross()?;
    for i in 0..count {
        add_post(&mut case, 10 * i64::from(i), beside)?;
    }
    Ok(case)
}

#[test]
fn conflicts_wherever_a_list_is_divided(rt: HostRuntime) -> Result<(), Fail> {
    let (crossing, overlap) = (Some(Kind::Crossing), Some(Kind::Overlap));
    let rows = [
        ("crosses", (-1, 2), (1, 2), crossing),
        ("passes the foot", (-1, 0), (1, 0), crossing),
        ("passes the top", (-1, 4), (1, 4), crossing),
        ("begins inside", (0, 2), (3, 3), crossing),
        ("ends inside", (-3, 1), (0, 2), crossing),
        ("lies inside", (0, 1), (0, 3), overlap),
        ("reaches beyond", (0, 3), (0, 5), overlap),
        ("begins at the foot", (0, 0), (3, 1), None),
        ("ends at the top", (-3, 1), (0, 4), None),
        ("goes on above", (0, 4), (0, 6), None),
        ("stands beside", (1, 0), (1, 4), None),
    ];
    // A hundred conflicts are few enough to be set aside, and three hundred aren't.
    for (name, from, to, kind) in rows {
        for count in [100, 300] {
            let case = posts(rt.alloc(), Beside { from, to, kind }, count)?;
            assert!(rt; case.is_found(rt.alloc())?, "{name}, {count} times");
        }
    }
    Ok(())
}

/// Two upright lines that overlap, each of which crosses a hundred steps.
fn steps_between_lines(alloc: Global) -> Result<Case, Fail> {
    let mut case = Case::new(alloc);
    let lines = [case.add((3, -5), (3, 995))?, case.add((3, -4), (3, 996))?];
    case.due(Kind::Overlap, lines[0], lines[1])?;
    for line in lines {
        for i in 0..100u32 {
            let y = 10 * i64::from(i);
            let step = case.add((0, y), (4, y))?;
            case.due(Kind::Crossing, line, step)?;
        }
    }
    Ok(case)
}

#[test]
fn conflicts_across_all_parts_are_listed_once(rt: HostRuntime) -> Result<(), Fail> {
    let case = steps_between_lines(rt.alloc())?;
    assert!(rt; case.is_found(rt.alloc())?);
    Ok(())
}

/// Slanted teeth four apart; a short bar crosses the first, the middle and the last of them.
fn comb(alloc: Global) -> Result<Case, Fail> {
    let mut case = Case::new(alloc);
    for i in 0..1000u32 {
        let x = 4 * i64::from(i);
        let tooth = case.add((x, 0), (x + 9000, 9000))?;
        if i == 0 || i == 500 || i == 999 {
            let bar = case.add((x + 99, 100), (x + 101, 100))?;
            case.due(Kind::Crossing, tooth, bar)?;
        }
    }
    Ok(case)
}

#[test]
fn three_crossings_in_a_comb(rt: HostRuntime) -> Result<(), Fail> {
    let case = comb(rt.alloc())?;
    assert!(rt; case.is_found(rt.alloc())?);
    Ok(())
}

/// A hundred segments from below and a hundred from above meet in a node; beside it two cross.
fn one_node(alloc: Global) -> Result<Case, Fail> {
    let mut case = Case::new(alloc);
    case.add_cross()?;
    for i in 0..100u32 {
        case.add((i64::from(i), -1000), (0, 0))?;
        case.add((0, 0), (i64::from(i), 999))?;
    }
    Ok(case)
}

#[test]
fn many_segments_meet_in_one_node(rt: HostRuntime) -> Result<(), Fail> {
    let case = one_node(rt.alloc())?;
    assert!(rt; case.is_found(rt.alloc())?);
    Ok(())
}

/// A million posts, of which the first alone is crossed.
fn million_posts(alloc: Global) -> Result<Case, Fail> {
    let mut case = Case::new(alloc);
    let bar = case.add((-1, 1), (1, 1))?;
    for i in 0..1_000_000u32 {
        let x = 2 * i64::from(i);
        let post = case.add((x, 0), (x, 1))?;
        if i == 0 {
            case.due(Kind::Crossing, post, bar)?;
        }
    }
    Ok(case)
}

#[test]
fn one_conflict_among_a_million(rt: HostRuntime) -> Result<(), Fail> {
    let case = million_posts(rt.alloc())?;
    assert!(rt; case.is_found(rt.alloc())?);
    Ok(())
}

/// A hundred steps up and down from 0,0 to 100,0.
fn long_line(alloc: Global) -> Result<Case, Fail> {
    let mut case = Case::new(alloc);
    for i in 0..50u32 {
        let x = 2 * i64::from(i);
        case.add((x, 0), (x + 1, 1))?;
        case.add((x + 1, 1), (x + 2, 0))?;
    }
    Ok(case)
}

/// The odd nodes of segments, by their x.
fn odd_ends(alloc: Global, segs: &[Seg]) -> Result<Vec<i32>, Fail> {
    let mut ends = Vec::new(alloc);
    for node in &odd_nodes(alloc, segs)? {
        ends.push(node.x)?;
    }
    Ok(ends)
}

/// Whether segments are an outline, with the list by upper ends.
fn are_sorted_outline(alloc: Global, segs: &[Seg]) -> Result<bool, Fail> {
    match outline_of(alloc, distinct(alloc, segs)?)? {
        Ok(outline) => Ok(outline.into_parts().1.is_some()),
        Err(_) => Ok(false),
    }
}

#[test]
fn a_long_line_and_a_ring(rt: HostRuntime) -> Result<(), Fail> {
    let mut case = long_line(rt.alloc())?;
    let ends = odd_ends(rt.alloc(), &case.segs)?;
    assert_eq!(rt; ends.as_slice(), [0, 100].as_slice());
    assert!(rt; !are_sorted_outline(rt.alloc(), &case.segs)?);
    // Three sides that go back below the line.
    case.add((0, 0), (0, -5))?;
    case.add((0, -5), (100, -5))?;
    case.add((100, -5), (100, 0))?;
    assert!(rt; are_sorted_outline(rt.alloc(), &case.segs)?);
    // A triangle across the lowest of them.
    case.add((10, -6), (20, -6))?;
    case.add((20, -6), (15, -4))?;
    case.add((15, -4), (10, -6))?;
    assert!(rt; !are_sorted_outline(rt.alloc(), &case.segs)?);
    Ok(())
}
