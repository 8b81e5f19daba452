//! The work: leaves are counted before the output is opened; then each is made into pieces, and those are written.

ghost use Rattle.std.specs.Prelude.{◌≡◌, All, IfErr, IfOk, List, ℕ};
ghost use Rattle.coast_split.specs.declared.leaves.SplitError.TheVariants.{TooManyPieces};
ghost use Rattle.job_coastline.specs.Coastline.{Coastlines, IsCoastline};
ghost use Rattle.job_coastline.specs.OutlineSteps.{AreCounted, HaveFewTogether};
ghost use Rattle.job_coastline.specs.WriteSteps.{ended_after, ended_unsplit};
ghost use Rattle.osm_elements.specs.declared.object.Object.{Object};
ghost use Rattle.osm_geom.specs.InPlane.Sided.{IsSided};
ghost use Rattle.osm_job.specs.Whole.{silent};
ghost use Rattle.osm_job.specs.Worked.{WroteOver};
ghost use Rattle.osm_job.specs.declared.ended.Ended.TheVariants as ended;
ghost use Rattle.osm_text.specs.Coast.{HasItsKind};
ghost use Rattle.osm_words.specs.Answers.{coastline_seen};

use crate::coast::input_of;
use crate::counting::check_leaves;
use crate::laws::pieces_exist;
use crate::outlines::{Outlines, outlines_of};
use crate::writing::{BrokenOff, write_coast};
use coast_split::SplitError;
use osm_host::{Host, streams_append};
use osm_job::{Ended, read_input};
use osm_objects::Store;
use osm_words::CoastlineSettings;
use std::alloc::Global;

/// Reads the input, joins its coastline ways, splits land and water, opens the output and writes what comes of them.
///
/// The output isn't opened where there are too many pieces. What is held of the pieces is one leaf at a time.
pub fn coastline<H: Host>(alloc: Global, settings: &CoastlineSettings<'_>, host: &mut H) -> Ended
    ensures { Coastlines (coastline_seen settings.now) result
        (H.seen host.old) (H.seen host.new) }
{
    // By law: what is written and opened adds up in turn, and what leaves make is there.
    streams_append();
    pieces_exist();
    let store = match read_input(alloc, host, settings.file) {
        Ok(store) => store,
        Err(ended) => return ended,
    };
    let outlines = match outlines_in(alloc, store, settings) {
        Ok(outlines) => outlines,
        Err(error) => return ended_unsplit(error),
    };
    let Ok(()) = host.open_output(settings.output, settings.overwrite) else {
        return Ended::OpenFault;
    };
    write_all(alloc, outlines, settings, host)
}

/// The outlines of the polygons that come of a store, unless they have too many leaves. The store goes before they are made.
fn outlines_in(
    alloc: Global,
    store: Store,
    settings: &CoastlineSettings<'_>,
) -> Result<Outlines, SplitError>
    ensures counted { IfOk result (λ outlines.
        AreCounted (coastline_seen settings.now) store outlines) }
    ensures many { IfErr result (λ e. (m : ℕ) → e ≡ TooManyPieces m
        → IsCoastline (coastline_seen settings.now) store (silent (ended.TooManyPieces m))) }
{
    let input = input_of(alloc, store)?;
    let outlines = outlines_of(alloc, input, settings)?;
    match check_leaves(alloc, &outlines, settings) {
        Ok(()) => Ok(outlines),
        Err(error) => Err(error),
    }
}

/// Writes all of it to the opened output, and says how the run ends.
fn write_all<H: Host>(
    alloc: Global,
    outlines: Outlines,
    settings: &CoastlineSettings<'_>,
    host: &mut H,
) -> Ended
    requires land { All IsSided outlines.land.items }
    requires water { All IsSided outlines.water.items }
    requires kinds { All HasItsKind outlines.lines.items }
    requires few { HaveFewTogether (coastline_seen settings.now)
        outlines.land.items outlines.water.items }
    ensures { (objects : List Object) → AreCounted (coastline_seen settings.now) objects outlines
        → WroteOver (IsCoastline (coastline_seen settings.now) objects) result
        (H.seen host.old) (H.seen host.new) }
{
    ended_after(write_coast(alloc, outlines, settings, host))
}

/// How a run ends whose polygons aren't split.
fn ended_unsplit(error: SplitError) -> Ended
    ensures { result ≡ ended_unsplit error }
{
    match error {
        SplitError::TooManyPieces { most } => Ended::TooManyPieces { most },
        SplitError::OutOfMemory => Ended::OutOfMemory,
    }
}

/// How a run ends whose output was opened.
fn ended_after(written: Result<Ended, BrokenOff>) -> Ended
    ensures { result ≡ ended_after written }
{
    match written {
        Ok(ended) => ended,
        Err(BrokenOff::WriteFault) => Ended::WriteFault,
        Err(BrokenOff::OutOfMemory) => Ended::OutOfMemory,
    }
}
