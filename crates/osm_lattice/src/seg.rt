//! Segments between two locations.
ghost use Rattle.std.specs.Prelude.{◌≡◌, ◌↔◌, IsNone, IfSome};
ghost use Rattle.std.specs.Ordering.{ord_min, ord_max};
ghost use Rattle.osm_lattice.specs.Loc.{loc_cmp, IsBefore};

use crate::loc::Loc;
use crate::orientation::compare_to_line;

/// A segment between two different locations, `a` the lesser in the order of locations (by y, then by x).
///
/// Segments are ordered by `a`, then by `b`.
#[derive(Clone, Copy, Debug, PartialEq, Eq, PartialOrd, Ord)]
pub struct Seg {
    pub a: Loc,
    pub b: Loc,
    pub ghost rising: { IsBefore a b },
}

impl Seg {
    ghost use Rattle.osm_lattice.specs.Line.{is_left_of_line, is_right_of_line};
    ghost use Rattle.osm_lattice.specs.Seg.{segment_between};

    /// The segment between two locations, whichever comes first; `None` if they are one location.
    #[tactic(auto, using(crate::proofs::SegmentsBetween::neither))]
    pub fn new(p: Loc, q: Loc) -> Option<Seg>
        ensures none { IsNone result ↔ (p ≡ q) }
        ensures lesser { IfSome result (λ s. s.a ≡ ord_min loc_cmp p q) }
        ensures greater { IfSome result (λ s. s.b ≡ ord_max loc_cmp p q) }
        ensures between { result ≡ segment_between p q }
    {
        if p < q {
            Some(Seg { a: p, b: q })
        } else if q < p {
            Some(Seg { a: q, b: p })
        } else {
            None
        }
    }
    /// Whether `p` is left of the segment's line.
    #[tactic(auto, using(crate::proofs::LocationOrder::is_lt_plus), unfolding(crate::specs::Line::is_left_of_line))]
    pub fn has_on_left(self, p: Loc) -> bool
        ensures { result ≡ is_left_of_line p self }
    {
        compare_to_line(p, self).is_lt()
    }

    /// Whether `p` is right of the segment's line.
    #[tactic(auto, using(crate::proofs::LocationOrder::is_gt_minus), unfolding(crate::specs::Line::is_right_of_line))]
    pub fn has_on_right(self, p: Loc) -> bool
        ensures { result ≡ is_right_of_line p self }
    {
        compare_to_line(p, self).is_gt()
    }
}
