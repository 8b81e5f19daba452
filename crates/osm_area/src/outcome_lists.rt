//! Lists of notes. Contracts see one as the list of its items.

use lists::List;
use osm_objects::Note;

/// What is noted of a candidate, in order.
pub type Notes = List<Note>;
