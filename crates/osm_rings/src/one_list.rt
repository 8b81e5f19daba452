//! The law that the ring list of edges is determined.

ghost use Rattle.osm_rings.specs.OneList.{RingListOfEdgesIsOne};

/// A sided list of edges has at most one ring list, up to the order of the rings and where each begins.
pub fn ring_list_of_edges_is_one()
    ensures { RingListOfEdgesIsOne }
{}
