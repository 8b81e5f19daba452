//! One ring.
ghost use Rattle.plane_lists.specs.Lists.RingLaws.{AnchorExists, RingWindsByAnchor};

/// A ring goes round every point once or not at all, and always the same way.
///
/// Its anchor shows the way: counterclockwise if the anchor runs down.
pub fn ring_winds_by_anchor()
    ensures anchor { AnchorExists }
    ensures winding { RingWindsByAnchor }
{}
