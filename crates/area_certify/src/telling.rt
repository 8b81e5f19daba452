//! What a candidate says about the lines that are left.

ghost use Rattle.std.specs.Prelude.{IfOk, IsSome};
ghost use Rattle.osm_objects.specs.Objects.{object_at};
ghost use Rattle.area_certify.specs.Lines.{text_lines};
ghost use Rattle.area_certify.specs.Telling.{IsLineTold};

use crate::feature::is_feature;
use crate::lines::first_line;
use osm_area::{area_of, outcome_is_one};
use osm_elements::ObjectRef;
use osm_objects::{Store, UniqueId};
use std::alloc::{AllocError as OutOfMemory, Global};

/// What a candidate says about the lines that are left.
#[derive(Clone, Copy)]
pub(crate) enum Told<'a> {
    /// It has no area, so none of the lines belongs to it.
    NoArea,
    /// The next line is its feature, and this text follows it.
    Right { rest: &'a [u8] },
    /// It has an area, but there is no next line, or that line isn't its feature.
    Wrong,
}

/// Assembles a candidate and compares its feature with the next line.
pub(crate) fn tell<'a>(
    alloc: Global,
    store: &Store,
    ids: Option<UniqueId>,
    counter: u64,
    candidate: ObjectRef,
    text: &'a [u8],
) -> Result<Told<'a>, OutOfMemory>
    requires held { IsSome (object_at store.now candidate) }
    ensures { IfOk result (IsLineTold ids store.now counter candidate (text_lines text.now)) }
{
    // By law: it has at most one outcome.
    outcome_is_one();
    let Some(polygons) = area_of(alloc, store, candidate)? else {
        return Ok(Told::NoArea);
    };
    let Some((line, rest)) = first_line(text) else {
        return Ok(Told::Wrong);
    };
    if is_feature(alloc, store, ids, counter, candidate, &polygons, line)? {
        return Ok(Told::Right { rest });
    }
    Ok(Told::Wrong)
}
