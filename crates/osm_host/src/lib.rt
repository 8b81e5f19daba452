//! The outside of the program: an input, an output and a report, behind one trait.
//!
//! The trait [`Host`] says what a program may rely on. A [`StreamHost`] is the host over an opener of files and three
//! streams. Its instance at the files and standard streams of the process is [`StdHost`].
#![tactic(auto)]

mod edge;
mod host;
mod laws;
mod opener;
mod standard;
mod stream_host;
mod writing;

pub use edge::ends;
pub use host::{Failed, Faults, Host, NO_FAULTS, note_fault};
pub use laws::streams_append;
pub use opener::{Opener, SystemFiles};
pub use standard::{StdHost, std_host};
pub use stream_host::StreamHost;
pub use writing::{write_all_out, write_all_report};
