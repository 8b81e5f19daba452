//! Makes polygons of OpenStreetMap data in OPL text.
#![tactic(auto)]

use osm_cli::run_for_status;
use osm_host::{ends, std_host};
use std::env;
use std::io::ErrorKind;
use std::process::ExitCode;

/// The status if the words can't be held.
const NO_MEMORY: u8 = 5;

/// The status if a word isn't text.
const NO_TEXT: u8 = 6;

fn main(rt: HostRuntime) -> ExitCode {
    let alloc = rt.alloc();
    let words = match words_given(&rt) {
        Ok(words) => words,
        Err(status) => return ends(status),
    };
    let mut host = std_host(rt);
    ends(run_for_status(alloc, &words, &mut host))
}

/// The words after the program's name, or the status that says why there are none.
fn words_given(rt: &HostRuntime) -> Result<Vec<String>, u8> {
    let words = match env::args(rt) {
        Ok(words) => words,
        Err(error) if error.kind() == ErrorKind::OutOfMemory => return Err(NO_MEMORY),
        Err(_) => return Err(NO_TEXT),
    };
    words.skip(1).collect(rt.alloc()).map_err(|_| NO_MEMORY)
}
