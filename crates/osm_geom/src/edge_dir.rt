//! The directions of edges.
ghost use Rattle.std.specs.Prelude.{◌≡◌, pos};
ghost use Rattle.osm_geom.specs.Carrier.{rising_of};
ghost use Rattle.osm_geom.specs.Dir.{vector_along};
ghost use Rattle.osm_geom.specs.Edge.{opposite, direction_of};

use crate::dir::Dir;
use crate::edge::{Carrier, Edge};
use crate::point_order::compare_points;
use osm_lattice::{step_x, step_y};
use std::cmp::Ordering;

/// The direction in which a carrier rises in the order of points.
#[tactic(auto, unfolding(osm_lattice::specs::Loc::step))]
fn rising(carrier: Carrier) -> Dir
    ensures { vector_along result ≡ rising_of carrier }
{
    match carrier {
        Carrier::OfSeg(s) => Dir {
            dx: step_x(s.a, s.b),
            dy: step_y(s.a, s.b),
        },
        Carrier::Vertical(_) => Dir { dx: 0, dy: 1 },
        Carrier::Horizontal(_) => Dir { dx: 1, dy: 0 },
    }
}

fn turned_back(d: Dir) -> Dir
    ensures { vector_along result ≡ opposite (vector_along d) }
{
    Dir {
        dx: 0 - d.dx,
        dy: 0 - d.dy,
    }
}

impl Edge {
    /// The direction from the first end to the second.
    ///
    /// On a segment it is that from its lesser end to its greater one, on a vertical line (0, 1), and on a horizontal one
    /// (1, 0). If the edge runs the other way, it is the opposite.
    #[tactic(auto, unfolding(crate::specs::Edge::direction_of, crate::specs::Point::point_cmp))]
    pub fn dir(&self) -> Dir
        ensures { vector_along result ≡ direction_of self.now }
    {
        let forward = rising(self.carrier);
        match compare_points(self.from, self.to) {
            Ordering::Less => forward,
            _ => turned_back(forward),
        }
    }
}
