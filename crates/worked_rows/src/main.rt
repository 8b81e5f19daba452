//! Makes the worked runs of the program, and calls of its crates: each is a row of standard input, in the form that the head of the
//! file `stdin` describes.
//!
//! A run is that of `osm_cli` over a host in memory. The calls are on words, on OPL that is read and written, on numbers, strings and
//! points in print, and on samples. For each row a line is printed, which ends in `ok` or says what was wanted and what came, and last
//! how many rows went as wanted, and how many didn't. The status is 1 where one didn't.
#![tactic(auto)]

mod answers;
mod calls;
mod feeding;
mod form;
mod fronts;
mod notation;
mod objects;
mod packed;
mod reading;
mod running;
mod samples;
mod telling;
mod words;
mod written;

use crate::telling::follow_rows;
use std::io;
use std::process::ExitCode;

fn main(rt: HostRuntime) -> io::Result<ExitCode> {
    follow_rows(rt)
}
