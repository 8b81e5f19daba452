//! The polygons of a sided list are valid in the sense of Simple Features.

ghost use Rattle.plane_lists.specs.Valid.Laws.{ConnectedIsNeeded, PolygonsAreValid, RingsShareOneNode, RingsShareOnePoint};

/// The polygons of the ring list of a sided list are together a valid MultiPolygon, each of them a valid Polygon.
///
/// That the interior is connected doesn't follow from the other conditions of a valid Polygon.
pub fn polygons_are_valid()
    ensures valid { PolygonsAreValid }
    ensures needed { ConnectedIsNeeded }
{}

/// Two rings of a valid Polygon share at most one node, since its interior is connected, and so at most one point.
pub fn rings_share_one_node()
    ensures node { RingsShareOneNode }
    ensures point { RingsShareOnePoint }
{}
