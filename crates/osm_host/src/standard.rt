//! The host over the real files and standard streams. Their contents are unknown to contracts.

ghost use Rattle.std.specs.Prelude.{◌≡◌};
ghost use Rattle.osm_host.specs.StreamHost.{fresh_outside, stream_outside};

use crate::opener::SystemFiles;
use crate::stream_host::StreamHost;
use std::fs::File;
use std::rt::{Stderr, Stdin, Stdout};

/// The files and standard streams of the process: the trusted edge of the program. The report is standard error.
pub type StdHost = StreamHost<SystemFiles, File, File, Stdin, Stdout, Stderr>;

/// The host over the files and streams of this runtime, before anything is open or has failed.
pub fn std_host(rt: HostRuntime) -> StdHost
    ensures { stream_outside result ≡ fresh_outside }
{
    let (input, output, report) = (rt.stdin(), rt.stdout(), rt.stderr());
    StreamHost::over(SystemFiles::new(rt), input, output, report)
}
