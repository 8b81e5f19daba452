//! How a sweep goes on to the height of a location.

ghost use Rattle.std.specs.Prelude.{◌≡◌, IfOk, false};
ghost use Rattle.osm_segments.specs.Outlines.{IsOutline};
ghost use Rattle.osm_sides.specs.Sweep.{AreEnds, IsSweptFrom};
ghost use lib.Signed.{lt_z};

use crate::sides::begins_by;
use crate::sweep::leaving::leave;
use crate::sweep::rows::enter_row;
use chunked_list::ChunkedList;
use osm_geom::{Loc, Seg};
use std::alloc::AllocError as OutOfMemory;

/// How far a sweep has got: how many of the segments have begun, and how many of those that end have left.
#[derive(Clone, Copy, Debug, PartialEq, Eq)]
pub struct Progress {
    pub begun: usize,
    pub left: usize,
}

/// Goes on to the height of `at`. Row by row, segments that begin by it enter, and those that have ended by it leave.
pub fn rise(
    status: &mut ChunkedList<Seg>,
    segs: &[Seg],
    ends: &[Seg],
    progress: Progress,
    at: Loc,
) -> Result<Progress, OutOfMemory>
    requires outline { IsOutline segs.now }
    requires ends { AreEnds segs.now ends.now }
    requires swept { (swept : IsSweptFrom segs.now ends.now progress.begun progress.left status.old)
        × (lt_z at.y swept.height.y ≡ false) }
    ensures { IfOk result (λ now.
        (swept : IsSweptFrom segs.now ends.now now.begun now.left status.new)
        × (swept.height.y ≡ at.y)) }
{
    let mut begun = progress.begun;
    let mut left = progress.left;
    while begun < segs.len() && begins_by(segs[begun], at) {
        let row = segs[begun].a;
        left = leave(status, ends, left, row);
        begun = enter_row(status, segs, begun, row)?;
    }
    left = leave(status, ends, left, at);
    Ok(Progress { begun, left })
}
