//! The envelope of a list of edges, and where it is cut.
ghost use Rattle.std.specs.Prelude.{◌≡◌, ◌≤◌, ◌*◌, ◌+ℤ◌, ◌-ℤ◌, List, pos, unsigned_abs};
ghost use Rattle.std.specs.Int.{int_div_euclid};
ghost use Rattle.plane.specs.Sign.{is_minus, sign};
ghost use Rattle.osm_geom.specs.declared.edge.Edge.{Edge};
ghost use Rattle.coast_split.specs.Batches.{AreAt, placing_by};
ghost use Rattle.coast_split.specs.Envelope.{IsSmall, envelope_at, envelope_of, high_in, joined_envelope, longer_in, low_in, middle_in, width_in};
ghost use Rattle.coast_split.specs.SplitTree.{greater, is_wide, lesser};

use osm_geom::{Axis, Cut, Edge, Point, Side, ceiling_at, floor_at};

/// How edges lie to the kept side of a cut line.
pub(crate) enum Placing {
    /// All strictly on the side.
    Kept,
    /// None with a point strictly on the side.
    Beyond,
    /// In any way.
    Across,
}

/// The least rectangle of whole coordinates in which a list of edges lies.
#[derive(Clone, Copy)]
pub(crate) struct Envelope {
    pub low_x: i64,
    pub high_x: i64,
    pub low_y: i64,
    pub high_y: i64,
}

/// The lesser of two numbers.
fn lesser(a: i64, b: i64) -> i64
    ensures { result ≡ lesser a b }
{
    if a < b { a } else { b }
}

/// The greater of two numbers.
fn greater(a: i64, b: i64) -> i64
    ensures { result ≡ greater a b }
{
    if a < b { b } else { a }
}

/// Whether one number is less than another.
fn is_less(a: i64, b: i64) -> bool
    ensures { result ≡ is_minus (sign (a -ℤ b)) }
{
    a < b
}

/// How edges lie to a cut line, by two tests.
fn placing_by(kept: bool, beyond: bool) -> Placing
    ensures { result ≡ placing_by kept beyond }
{
    if kept {
        Placing::Kept
    } else if beyond {
        Placing::Beyond
    } else {
        Placing::Across
    }
}

/// The whole number in the middle of two; of two such the lesser.
fn between(a: i64, b: i64) -> i64
    requires first { unsigned_abs a ≤ 1_800_000_000 }
    requires second { unsigned_abs b ≤ 1_800_000_000 }
    ensures value { result ≡ int_div_euclid (a +ℤ b) (pos 2) }
    ensures small { unsigned_abs result ≤ 1_800_000_000 }
{
    (a + b).div_euclid(2)
}

/// The envelope of one point.
fn envelope_at(p: &Point) -> Envelope
    ensures { result ≡ envelope_at p.now }
{
    Envelope {
        low_x: floor_at(p, Axis::X),
        high_x: ceiling_at(p, Axis::X),
        low_y: floor_at(p, Axis::Y),
        high_y: ceiling_at(p, Axis::Y),
    }
}

impl Envelope {
    /// The least that holds both.
    pub(crate) fn joined(self, other: Envelope) -> Envelope
        ensures { result ≡ joined_envelope self other }
    {
        Envelope {
            low_x: lesser(self.low_x, other.low_x),
            high_x: greater(self.high_x, other.high_x),
            low_y: lesser(self.low_y, other.low_y),
            high_y: greater(self.high_y, other.high_y),
        }
    }

    /// Where its side on an axis begins.
    fn low(&self, axis: Axis) -> i64
        ensures { result ≡ low_in axis self.now }
    {
        match axis {
            Axis::X => self.low_x,
            Axis::Y => self.low_y,
        }
    }

    /// Where its side on an axis ends.
    fn high(&self, axis: Axis) -> i64
        ensures { result ≡ high_in axis self.now }
    {
        match axis {
            Axis::X => self.high_x,
            Axis::Y => self.high_y,
        }
    }

    /// How the edges that have this envelope lie to a cut line.
    pub(crate) fn placing(&self, cut: Cut, side: Side) -> Placing
        ensures { (es : List Edge) → self.now ≡ envelope_of es → AreAt cut side result es }
    {
        let at = i64::from(cut.at);
        let low = self.low(cut.axis);
        let high = self.high(cut.axis);
        match side {
            Side::Low => placing_by(is_less(high, at), !is_less(low, at)),
            Side::High => placing_by(is_less(at, low), !is_less(at, high)),
        }
    }

    /// How long its side on an axis is.
    pub(crate) fn width(&self, axis: Axis) -> i64
        requires { IsSmall self.now }
        ensures { result ≡ width_in axis self.now }
    {
        match axis {
            Axis::X => self.high_x - self.low_x,
            Axis::Y => self.high_y - self.low_y,
        }
    }

    /// The axis of its longer side, or x if both are equal.
    pub(crate) fn longer(&self) -> Axis
        requires { IsSmall self.now }
        ensures { result ≡ longer_in self.now }
    {
        if is_less(self.width(Axis::X), self.width(Axis::Y)) {
            Axis::Y
        } else {
            Axis::X
        }
    }

    /// The middle of its side on an axis.
    pub(crate) fn middle(&self, axis: Axis) -> i64
        requires { IsSmall self.now }
        ensures value { result ≡ middle_in axis self.now }
        ensures small { unsigned_abs result ≤ 1_800_000_000 }
    {
        match axis {
            Axis::X => between(self.low_x, self.high_x),
            Axis::Y => between(self.low_y, self.high_y),
        }
    }
}

/// Whether a side is long enough to be cut.
pub(crate) fn is_wide(width: i64, overlap: u32) -> bool
    ensures { result ≡ is_wide overlap width }
{
    !is_less(width, 8 * i64::from(overlap)) && !is_less(width, 4)
}

/// The least rectangle of whole coordinates in which the edges lie, in one pass.
pub(crate) fn envelope_of(edges: &[Edge]) -> Envelope
    ensures value { result ≡ envelope_of edges.now }
    ensures small { IsSmall result }
{
    let Some(first) = edges.first() else {
        return Envelope {
            low_x: 0,
            high_x: 0,
            low_y: 0,
            high_y: 0,
        };
    };
    let mut envelope = envelope_at(&first.from);
    for e in edges {
        envelope = envelope
            .joined(envelope_at(&e.from))
            .joined(envelope_at(&e.to));
    }
    envelope
}
