//! OpenStreetMap's objects as values: nodes, ways and relations, with their tags, references and members in few bytes.
#![tactic(auto)]

mod block;
mod compact;
mod coordinate;
mod members;
mod object;
mod packed;
mod refs;
mod tags;
mod text;
mod usual;

pub use coordinate::{Latitude, Longitude};
pub use members::{MemberIter, MemberRef, Members};
pub use object::{Member, Object, ObjectKind, ObjectRef, Ref, Tag};
pub use refs::{RefIter, Refs};
pub use tags::{TagIter, TagRef, Tags};
pub use text::Text;
