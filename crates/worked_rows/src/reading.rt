//! The references of a long line, decimals, keys and points as they are read.

use crate::answers::{Answer, NO_MEMORY};
use crate::calls::Call;
use crate::objects::put_location;
use opl_reader::{is_keys, read_decimal, read_keys, read_line};
use osm_elements::{Object, Text};
use osm_input::points::{PointsError, read_points};
use osm_lattice::Loc;
use std::alloc::Global;

/// Adds how many references are read of a way's line.
pub(crate) fn put_count(alloc: Global, line: &[u8], told: &mut Answer) {
    match read_line(alloc, line) {
        Ok(Some(Object::Way { refs, .. })) => told.put_shown(&refs.len()),
        _other => told.put("no way"),
    }
}

/// Adds the number of a decimal within a limit, 1800000000 where none is said.
pub(crate) fn put_decimal(call: Call<'_>, told: &mut Answer) {
    let limit = call.by.parse().unwrap_or(1_800_000_000);
    told.put_debug(&read_decimal(call.text, limit));
}

/// Adds the keys of a text, a bar behind each; `none` where it isn't KEYS.
pub(crate) fn put_keys(alloc: Global, text: &str, told: &mut Answer) {
    match read_keys(alloc, text) {
        Ok(Some(keys)) if is_keys(text) => put_each(keys.as_slice(), told),
        Ok(None) if !is_keys(text) => told.put("none"),
        _ => told.put("KEYS, and not read as these"),
    }
}

/// Adds keys, a bar behind each.
fn put_each(keys: &[Text], told: &mut Answer) {
    for key in keys {
        told.put(key.as_str());
        told.put("|");
    }
}

/// Adds the points of a text as `x,y` in units, a line for each, or the line of the first bad one.
pub(crate) fn put_points(alloc: Global, text: &[u8], told: &mut Answer) {
    match read_points(alloc, text) {
        Ok(points) => put_locations(points.as_slice(), told),
        Err(PointsError::BadPoint { line }) => {
            told.put("bad ");
            told.put_shown(&line);
        }
        Err(PointsError::OutOfMemory) => told.put(NO_MEMORY),
    }
}

/// Adds locations, a line for each.
fn put_locations(points: &[Loc], told: &mut Answer) {
    for at in points {
        put_location(told, *at);
        told.put("\n");
    }
}
