//! A summary as two lines.

ghost use Rattle.std.specs.Prelude.{◌≡◌, ◌++◌, IfOk, OnOk, codes, decimal};
ghost use Rattle.osm_job.specs.Sent.{lines_text};
ghost use Rattle.job_small.specs.Sampling.SummaryLines.{area_line, coast_line};

use crate::sample::summary::Summary;
use osm_notation::put_number;
use std::alloc::{AllocError as OutOfMemory, Global};

/// Adds what is counted, and its number.
fn put_count(line: &mut Vec<u8>, word: &str, count: u64) -> Result<(), OutOfMemory>
    ensures { OnOk result (line.new.items ≡ line.old.items ++ word.now ++ decimal count) }
{
    line.extend_from_slice(word.as_bytes())?;
    put_number(line, count)
}

/// The line on areas.
fn area_line(alloc: Global, summary: &Summary) -> Result<Vec<u8>, OutOfMemory>
    ensures { IfOk result (λ line. line.items ≡ area_line summary.now) }
{
    let mut line = Vec::new(alloc);
    put_count(&mut line, "areas ", summary.areas)?;
    put_count(&mut line, " polygons ", summary.polygons)?;
    put_count(&mut line, " rings ", summary.rings)?;
    put_count(&mut line, " problems ", summary.problems)?;
    line.push(b'\n')?;
    Ok(line)
}

/// The line on land and water.
fn coast_line(alloc: Global, summary: &Summary) -> Result<Vec<u8>, OutOfMemory>
    ensures { IfOk result (λ line. line.items ≡ coast_line summary.now) }
{
    let mut line = Vec::new(alloc);
    put_count(&mut line, "land ", summary.land)?;
    put_count(&mut line, " water ", summary.water)?;
    put_count(&mut line, " warnings ", summary.warnings)?;
    put_count(&mut line, " errors ", summary.errors)?;
    line.push(b'\n')?;
    Ok(line)
}

/// Both lines. Fails only if memory runs out.
pub(crate) fn lines_of(alloc: Global, summary: &Summary) -> Result<Vec<Vec<u8>>, OutOfMemory>
    ensures { IfOk result (λ lines.
        lines_text lines.items ≡ area_line summary.now ++ coast_line summary.now) }
{
    let mut lines = Vec::new(alloc);
    lines.push(area_line(alloc, summary)?)?;
    lines.push(coast_line(alloc, summary)?)?;
    Ok(lines)
}
