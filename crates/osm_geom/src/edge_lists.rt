//! Lists of points and of edges. Contracts see each as the list of its items.

use crate::edge::Edge;
use crate::point::Point;
use lists::List;

/// A list of points.
pub type Points = List<Point>;

/// A list of edges.
pub type Edges = List<Edge>;
