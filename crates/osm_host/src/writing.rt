//! Whole pieces, in as many writes as they take.

ghost use Rattle.std.specs.Prelude.{◌≡◌, ◌<◌, ◌≤◌, ◌++◌, ℕ, List, length, take, OnOk, OnErr};
ghost use Rattle.osm_host.specs.Outside.{appended, Counts, OnlyWritesOut, OnlyWritesReport};

use crate::host::{Failed, Host};

/// Writes all of the bytes to the output. If a write fails, a prefix of them was written.
///
/// It makes only writes to the output, and takes no memory.
pub fn write_all_out<H: Host>(host: &mut H, bytes: &[u8]) -> Result<(), Failed>
    ensures all { OnOk result ((H.seen host.new).out ≡ appended (H.seen host.old).out bytes.now) }
    ensures front { OnErr result ((n : ℕ)
        × ((H.seen host.new).out ≡ appended (H.seen host.old).out (take n bytes.now))) }
    ensures some { OnErr result (0 < length bytes.now) }
    ensures cause { Counts (H.seen host.old).write_faults (H.seen host.new).write_faults result }
    ensures rest { OnlyWritesOut (H.seen host.old) (H.seen host.new) }
{
    let mut written = 0;
    while written < bytes.len() {
        written += host.write_out(&bytes[written..])?;
    }
    Ok(())
}

/// Writes all of the bytes to the report. If a write fails, a prefix of them was written.
///
/// It makes only writes to the report, and takes no memory.
pub fn write_all_report<H: Host>(host: &mut H, bytes: &[u8]) -> Result<(), Failed>
    ensures all { OnOk result ((H.seen host.new).report
        ≡ appended (H.seen host.old).report bytes.now) }
    ensures front { OnErr result ((n : ℕ)
        × ((H.seen host.new).report ≡ appended (H.seen host.old).report (take n bytes.now))) }
    ensures some { OnErr result (0 < length bytes.now) }
    ensures cause { Counts (H.seen host.old).write_faults (H.seen host.new).write_faults result }
    ensures rest { OnlyWritesReport (H.seen host.old) (H.seen host.new) }
{
    let mut written = 0;
    while written < bytes.len() {
        written += host.write_report(&bytes[written..])?;
    }
    Ok(())
}
