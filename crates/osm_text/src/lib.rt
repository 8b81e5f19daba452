//! Features in text and in GeoJSON, and pieces of land and water: polygons by the paths of their rings.
//!
//! What adds to a text may have added a part where memory runs out: what was there still stands in front.
#![tactic(auto)]

mod coast;
mod coast_lines;
mod feature;
mod feature_id;
mod laws;
mod notation;
mod paths;
mod phrases;
mod piece;
mod properties;
mod report;
mod rounded;

pub use coast::CoastLine;
pub use coast_lines::{coast_line, is_error};
pub use feature::{feature_json, feature_text, put_feature_json, put_feature_text};
pub use feature_id::FeatureId;
pub use laws::{coast_line_exists, coast_line_is_one, problem_line_exists, problem_line_is_one};
pub use osm_notation::{put_decimal, written};
pub use paths::whole_segments_have_paths;
pub use piece::{Piece, PieceKind, piece_text};
pub use properties::tags_by_key;
pub use report::{note_line, problem_line};
