//! Locations.
ghost use Rattle.std.specs.Prelude.{◌≡◌, ◌^◌, ◌<◌, ◌≤◌, ◌↔◌, ◌*ℤ◌, ◌+ℤ◌, pos, unsigned_abs, IsSome, IfSome};
ghost use Rattle.std.proofs.Common.{rules};
ghost use Rattle.std.specs.Cmp.{partial_order_from_own_ties};
ghost use Rattle.std.specs.Cmp.Rules.{comparing};
ghost use Rattle.std.specs.Ordering.{as_partial_cmp};
ghost use Rattle.osm_lattice.specs.Bounds.{IsLongitude, IsLatitude};

use std::cmp::Ordering;

/// A location, in units of 1e-7 degree.
#[derive(Clone, Copy, Debug, PartialEq, Eq)]
pub struct Loc {
    pub x: i32,
    pub y: i32,
    pub ghost x_in: { IsLongitude x },
    pub ghost y_in: { IsLatitude y },
}

impl Loc {
    /// The location, if both coordinates are in range.
    pub fn new(x: i64, y: i64) -> Option<Loc>
        ensures valid { IsSome result ↔ (IsLongitude x × IsLatitude y) }
        ensures value { IfSome result (λ p. (p.x ≡ x) × (p.y ≡ y)) }
    {
        if x < -1_800_000_000 || x > 1_800_000_000 || y < -900_000_000 || y > 900_000_000 {
            return None;
        }
        Some(Loc {
            x: x as i32,
            y: y as i32,
        })
    }

    /// A number that grows in the order of locations: two of them are compared in one step.
    fn rank(&self) -> i64
        ensures { result ≡ self.now.y *ℤ pos 4_294_967_296 +ℤ self.now.x }
    {
        i64::from(self.y) * 4_294_967_296 + i64::from(self.x)
    }
}

impl Ord for Loc {
    ghost use Rattle.osm_lattice.specs.Loc.{loc_cmp};

    ghost cmp = { loc_cmp };

    ghost total = { Prim.search (comparing, rules) };

    ghost matches_partial_cmp = { Prim.search (comparing, rules) };

    ghost matches_eq = { Prim.search (comparing, rules) };

    fn cmp(&self, other: &Loc) -> Ordering {
        self.rank().cmp(&other.rank())
    }
}

impl PartialOrd for Loc {
    ghost use Rattle.osm_lattice.specs.Loc.{loc_cmp};

    ghost partial_cmp = { as_partial_cmp loc_cmp };

    ghost laws = { partial_order_from_own_ties (Prim.search (comparing, rules)) (Prim.search (comparing, rules)) };

    fn partial_cmp(&self, other: &Loc) -> Option<Ordering> {
        Some(self.cmp(other))
    }
}
