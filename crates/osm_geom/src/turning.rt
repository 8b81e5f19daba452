//! Directions in clockwise order around one.
ghost use Rattle.std.specs.Prelude.{◌≡◌};
ghost use Rattle.osm_geom.specs.Dir.{cross, dot, turn_of, clockwise_cmp};

use crate::dir::Dir;
use std::cmp::Ordering;

/// A clockwise turn: below half a turn, half, above half, and a full one.
#[derive(Clone, Copy, Debug, PartialEq, Eq, PartialOrd, Ord)]
enum Turn {
    Right,
    Back,
    Left,
    Ahead,
}

#[tactic(auto, unfolding(crate::specs::Dir::cross))]
fn cross(d: Dir, e: Dir) -> i128
    ensures { result ≡ cross d e }
{
    i128::from(d.dx) * i128::from(e.dy) - i128::from(d.dy) * i128::from(e.dx)
}

#[tactic(auto, unfolding(crate::specs::Dir::dot))]
fn dot(d: Dir, e: Dir) -> i128
    ensures { result ≡ dot d e }
{
    i128::from(d.dx) * i128::from(e.dx) + i128::from(d.dy) * i128::from(e.dy)
}

fn turn_between(from: Dir, d: Dir) -> Turn
    ensures { result ≡ turn_of from d }
{
    match cross(from, d).cmp(&0) {
        Ordering::Less => Turn::Right,
        Ordering::Greater => Turn::Left,
        Ordering::Equal => match dot(from, d).cmp(&0) {
            Ordering::Less => Turn::Back,
            _ => Turn::Ahead,
        },
    }
}

/// The order of the angles by which `d` and `e` are turned clockwise from `from`.
///
/// Each is above 0 and up to a full turn, which is the angle of `from` itself. `clockwise_order_is_total` says that the
/// order is total, and `Equal` only for equal directions, however long their steps.
pub fn clockwise(from: Dir, d: Dir, e: Dir) -> Ordering
    ensures { result ≡ clockwise_cmp from d e }
{
    turn_between(from, d)
        .cmp(&turn_between(from, e))
        .then(cross(d, e).cmp(&0))
}
