//! The work: reads and locates all points, and makes their lines, before the output is opened.

ghost use Rattle.std.specs.Prelude.{◌≡◌, [], ◌∷◌, IfOk};
ghost use Rattle.area_locate.specs.Hits.{AreFound};
ghost use Rattle.job_small.specs.Locating.Locate.{Locates, choice_of};
ghost use Rattle.job_small.specs.Locating.Lines.{point_lines};
ghost use Rattle.job_small.specs.Locating.WorkSteps.{TellsPoints, points_ended};
ghost use Rattle.osm_job.specs.Spared.{SparesOutput};
ghost use Rattle.osm_words.specs.Answers.{locate_seen};

use crate::locate::printing::put_line;
use area_locate::{Found, FoundList, locate};
use osm_host::{Host, streams_append};
use osm_input::points::{PointsError, read_points};
use osm_job::{Ended, choice_of, read_both, write_text};
use osm_lattice::Loc;
use osm_objects::Store;
use osm_words::LocateSettings;
use std::alloc::{AllocError as OutOfMemory, Global};

/// Reads the input and then the points, opens the output and writes a line for each point.
///
/// The line says which areas hold the point and which have it on them, in order of the candidates.
pub fn locate_points<H: Host>(alloc: Global, settings: &LocateSettings<'_>, host: &mut H) -> Ended
    ensures works { Locates (locate_seen settings.now) result (H.seen host.old) (H.seen host.new) }
    // If memory ran out, no output was opened and nothing was written.
    ensures spares { SparesOutput (settings.now.file.now ∷ settings.now.points.now ∷ []) result
        (H.seen host.old) (H.seen host.new) }
{
    // By law: what is written and opened adds up in turn.
    streams_append();
    let (store, text) = match read_both(alloc, host, settings.file, settings.points) {
        Ok(both) => both,
        Err(ended) => return ended,
    };
    let points = match read_points(alloc, &text) {
        Ok(points) => points,
        Err(error) => return points_ended(error),
    };
    let Ok(lines) = lines_for(alloc, &store, settings, &points) else {
        return Ended::OutOfMemory;
    };
    let Ok(()) = host.open_output(settings.output, settings.overwrite) else {
        return Ended::OpenFault;
    };
    write_text(host, &lines)
}

/// How a run ends if its points can't be read.
fn points_ended(error: PointsError) -> Ended
    ensures { result ≡ points_ended error }
{
    match error {
        PointsError::BadPoint { line } => Ended::BadPoint { line },
        PointsError::OutOfMemory => Ended::OutOfMemory,
    }
}

/// Locates the points among the areas that the settings choose.
fn find(
    alloc: Global,
    store: &Store,
    settings: &LocateSettings<'_>,
    points: &[Loc],
) -> Result<FoundList, OutOfMemory>
    ensures { IfOk result (λ found.
        AreFound (choice_of (locate_seen settings.now)) store.now points.now found) }
{
    let keep_untagged = settings.keep_untagged;
    let choice = choice_of(
        alloc,
        keep_untagged,
        settings.area_keys,
        settings.linear_keys,
    )?;
    locate(alloc, store, &choice, points)
}

/// The lines of points, located among the areas that the settings choose.
fn lines_for(
    alloc: Global,
    store: &Store,
    settings: &LocateSettings<'_>,
    points: &[Loc],
) -> Result<Vec<u8>, OutOfMemory>
    ensures { IfOk result (λ lines. TellsPoints (choice_of (locate_seen settings.now)) store.now
        points.now lines.items) }
{
    let found = find(alloc, store, settings, points)?;
    lines_of(alloc, found.as_slice())
}

/// The lines of located points, in order.
fn lines_of(alloc: Global, found: &[Found]) -> Result<Vec<u8>, OutOfMemory>
    ensures { IfOk result (λ lines. lines.items ≡ point_lines found.now) }
{
    let mut lines = Vec::new(alloc);
    for entry in found {
        put_line(&mut lines, entry)?;
    }
    Ok(lines)
}
