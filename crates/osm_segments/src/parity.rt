//! Whether an even number of segments end at each location, found along two orders: of lesser ends and of greater ones.
ghost use Rattle.std.specs.Prelude.{◌≡◌, ◌%◌, ◌+◌, ◌≤◌, IfSome, IsPermutation, length, true};
ghost use Rattle.osm_lattice.specs.declared.loc.Loc.{Loc};
ghost use Rattle.osm_lattice.specs.Loc.{loc_cmp};
ghost use Rattle.lists.specs.Rising.{count_of};
ghost use Rattle.osm_segments.specs.Counts.{ends_of};
ghost use Rattle.osm_segments.specs.Parity.{ArePassed, greater_at, lesser_at};

use osm_lattice::{Loc, Seg};

/// Whether two locations are equal.
#[tactic(auto, using(crate::proofs::SegmentTests::loc_by_tests))]
pub(crate) fn is_same(p: Loc, q: Loc) -> bool
    ensures { result ≡ true → p ≡ q }
{
    p == q
}

/// The places after two of the remaining ends that are equal, if two such come first.
///
/// They are a lesser and a greater end, or two of the same list.
fn pass_two(lower: &[Seg], i: usize, upper: &[Seg], j: usize) -> Option<(usize, usize)>
    requires lesser { i ≤ length lower.now }
    requires greater { j ≤ length upper.now }
    ensures { IfSome result (λ next. ArePassed lower.now i next.0 upper.now j next.1) }
{
    if i < lower.len() && j < upper.len() && is_same(lower[i].a, upper[j].b) {
        return Some((i + 1, j + 1));
    }
    if j < upper.len() && j + 1 < upper.len() && is_same(upper[j].b, upper[j + 1].b) {
        return Some((i, j + 2));
    }
    if i < lower.len() && i + 1 < lower.len() && is_same(lower[i].a, lower[i + 1].a) {
        return Some((i + 2, j));
    }
    None
}

/// Whether lesser ends of some segments and greater ends of others can be passed two by two, each two being equal.
///
/// If both lists are in order, they are passed whenever that is possible.
fn pass_by_twos(lower: &[Seg], upper: &[Seg]) -> bool
    ensures { result ≡ true → (p : Loc) → (lesser_at p lower.now + greater_at p upper.now) % 2 ≡ 0 }
{
    let mut i = 0;
    let mut j = 0;
    while i < lower.len() || j < upper.len() {
        match pass_two(lower, i, upper, j) {
            Some(next) => {
                i = next.0;
                j = next.1;
            }
            None => return false,
        }
    }
    true
}

/// Whether an even number of segments is found to end at each location.
/// They are also given in the order of their greater ends.
pub fn are_even(segs: &[Seg], ends: &[Seg]) -> bool
    requires { IsPermutation segs.now ends.now }
    ensures { result ≡ true → (p : Loc) → count_of loc_cmp p (ends_of segs.now) % 2 ≡ 0 }
{
    pass_by_twos(segs, ends)
}
