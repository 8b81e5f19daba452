//! The rectangle that an area lies in.

ghost use Rattle.std.specs.Prelude.{◌≡◌};
ghost use Rattle.osm_lattice.specs.declared.loc.Loc.{Loc};
ghost use Rattle.area_locate.specs.Envelopes.{Encloses, IsInEnvelope, lacks};

use osm_lattice::{Loc, Seg};

/// A rectangle, its border included, in units of 1e-7 degree. Where `left` is above `right` it has no location.
#[derive(Clone, Copy, Debug, PartialEq, Eq)]
pub(crate) struct Envelope {
    pub(crate) left: i32,
    pub(crate) right: i32,
    pub(crate) low: i32,
    pub(crate) high: i32,
}

impl Envelope {
    /// The one without locations.
    fn none() -> Envelope {
        Envelope {
            left: i32::MAX,
            right: i32::MIN,
            low: i32::MAX,
            high: i32::MIN,
        }
    }

    /// The least that also has this location.
    fn with(self, p: Loc) -> Envelope
        ensures new { IsInEnvelope result p }
        ensures old { (q : Loc) → IsInEnvelope self q → IsInEnvelope result q }
    {
        Envelope {
            left: self.left.min(p.x),
            right: self.right.max(p.x),
            low: self.low.min(p.y),
            high: self.high.max(p.y),
        }
    }

    /// The least that has all of these segments.
    pub(crate) fn of(sides: &[Seg]) -> Envelope
        ensures { Encloses result sides.now }
    {
        let mut envelope = Envelope::none();
        for side in sides {
            envelope = envelope.with(side.a).with(side.b);
        }
        envelope
    }

    /// Whether the location is outside.
    pub(crate) fn lacks(&self, p: Loc) -> bool
        ensures { result ≡ lacks self.now p }
    {
        p.x < self.left || self.right < p.x || p.y < self.low || self.high < p.y
    }
}
