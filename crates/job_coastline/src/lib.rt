//! The coastline job: the coastline ways of an input joined to rings, land and water split into pieces, and a report.
//!
//! The pieces go to an output, and the report has all that is amiss. What the job must write in all is a definition over the
//! objects of the input (specs/Coastline). It says what becomes of the coastline ways, which polygons are asked for, which
//! leaves they are split into, and how these are printed. It also says which lines the report has, and these determine how
//! the run ends.
//!
//! Too many leaves end the run before anything is written. So leaves are counted first. Then each is made into pieces, and
//! those are written before the next one is cut out.
#![tactic(auto)]

mod coast;
mod counting;
mod counts;
mod laws;
mod line_laws;
mod lines;
mod outlines;
mod pieces;
mod work;
mod writing;

pub use counts::{CoastCounts, coast_counts};
pub use laws::pieces_exist;
pub use line_laws::lines_have_kinds;
pub use work::coastline;
