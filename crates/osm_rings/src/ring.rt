//! Rings, and lists of them.
ghost use Rattle.std.specs.Prelude.{◌≡◌, ◌≢◌, ◌<◌, ◌++◌, ◌∷◌, [], All, IfOk, OnErr, OnOk, length, slice_index_or};
ghost use Rattle.std.specs.declared.cmp.Ordering.TheVariants.{Less};
ghost use Rattle.osm_geom.specs.Point.{point_cmp};
ghost use Rattle.osm_rings.specs.LeastStart.{IsLesserStart};
ghost use Rattle.osm_rings.specs.Ring.{IsRing};
ghost use Rattle.lists.specs.Rotated.{IsRotated};
ghost use Rattle.osm_rings.specs.Turned.{BeginsLeast};

use lists::List;
use osm_geom::{Edge, order_points};
use std::alloc::{AllocError as OutOfMemory, Global};
use std::cmp::Ordering;
use std::marker::Model;

/// A closed chain of edges: a linear ring, as in RFC 7946, but without its first point again at the end.
///
/// It has at least three edges. Each ends where the next one begins, and the last where the first begins. No point is left
/// twice: if an area touches itself at a node, there are two rings.
///
/// Of the rings that `rings` gives no two cross, though they may touch at nodes. The inside of the area is on the left of
/// each edge: an outer ring runs counterclockwise, an inner one clockwise. Contracts see a ring as the list of its edges.
#[derive(Drop)]
pub struct Ring {
    edges: Vec<Edge>,
}

impl Model for Ring {
    ghost use Rattle.std.specs.Prelude.{List};
    ghost use Rattle.osm_geom.specs.declared.edge.Edge.{Edge};
    ghost use Rattle.osm_rings.specs.Ring.{IsRing};

    ghost Value = { List Edge };

    ghost view = { λ ring. ring.edges.items };

    ghost invariant = { λ ring. IsRing ring.edges.items };
}

impl Ring {
    /// The ring of these edges, which make one.
    pub fn of_edges(edges: Vec<Edge>) -> Ring
        requires { IsRing edges.items }
        ensures { result ≡ edges.items }
    {
        Ring { edges }
    }

    /// Its edges, in order.
    pub fn as_slice(&self) -> &[Edge]
        ensures edges { result.now ≡ self.now }
        ensures ring { IsRing self.now }
    {
        self.edges.as_slice()
    }

    /// The vector of its edges, in order.
    pub fn into_vec(self) -> Vec<Edge>
        ensures { result.items ≡ self }
    {
        self.edges
    }

    /// The place of the edge that leaves the ring's least node.
    pub fn least_place(&self) -> usize
        ensures inside { result < length self.now }
        ensures least { All (λ e. point_cmp e.from (slice_index_or self.now result e).from
            ≢ Less) self.now }
    {
        least_start(self.as_slice())
    }

    /// The same edges in the same cyclic order, beginning with the one that leaves the ring's least node.
    ///
    /// Fails only if memory runs out.
    pub fn from_least(&self, alloc: Global) -> Result<Ring, OutOfMemory>
        ensures turned { IfOk result (λ ring. IsRotated self.now ring) }
        ensures least { IfOk result (λ ring. BeginsLeast ring) }
    {
        let edges = self.as_slice();
        let least = least_start(edges);
        let mut turned = Vec::with_capacity(alloc, edges.len())?;
        turned.extend_from_slice(&edges[least..])?;
        turned.extend_from_slice(&edges[..least])?;
        Ok(Ring::of_edges(turned))
    }

    /// What `from_least` gives, in the ring's own memory.
    pub fn turn_to_least(&mut self)
        ensures turned { IsRotated self.old self.new }
        ensures least { BeginsLeast self.new }
    {
        let least = least_start(self.as_slice());
        self.edges.rotate_left(least);
    }
}

/// The place of an edge that leaves the least point.
fn least_start(edges: &[Edge]) -> usize
    requires { 0 < length edges.now }
    ensures inside { result < length edges.now }
    ensures least { All (λ e. point_cmp e.from (slice_index_or edges.now result e).from
        ≢ Less) edges.now }
{
    let mut least = 0;
    for place in 0..edges.len() {
        least = lesser_start(edges, least, place);
    }
    least
}

/// The one of two places whose edge leaves the lesser point, or the first if both leave the same point.
fn lesser_start(edges: &[Edge], least: usize, place: usize) -> usize
    requires first { least < length edges.now }
    requires second { place < length edges.now }
    ensures { IsLesserStart edges.now least place result }
{
    match order_points(&edges[place].from, &edges[least].from) {
        Ordering::Less => place,
        _ => least,
    }
}

/// A list of rings. In the list that `rings` gives, each edge of the area's boundary is in exactly one of them, once.
pub type Rings = List<Ring>;
