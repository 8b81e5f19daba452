//! Polygons in well-known text and in GeoJSON: lists in parentheses or in brackets, a ring's first point again at its end.

ghost use Rattle.std.specs.Prelude.{◌≡◌, ◌++◌, map, OnOk, OnErr};
ghost use Rattle.osm_notation.specs.Kept.{KeepsFront};
ghost use Rattle.osm_text.specs.GeoJson.{position_json};
ghost use Rattle.osm_text.specs.Notation.{close_of, open_of, point_in, polygon_in, polygon_list_text, ring_in};
ghost use Rattle.osm_text.specs.Paths.{path_along, paths_in, paths_of};
ghost use Rattle.osm_text.specs.Rows.{led_by_byte};

use crate::paths::{first_along, location_at};
use osm_geom::{Edge, Loc};
use osm_nest::Polygon;
use osm_notation::{put_both, put_point};
use osm_rings::Ring;
use std::alloc::AllocError as OutOfMemory;

/// How polygons are spelled.
#[derive(Clone, Copy)]
pub(crate) enum Notation {
    /// Well-known text: lists in parentheses, a space between the coordinates of a point.
    WellKnown,
    /// GeoJSON: lists in brackets, a position being a list too.
    Json,
}

impl Notation {
    /// The byte that a list begins with.
    fn open(self) -> u8
        ensures { result ≡ open_of self }
    {
        match self {
            Notation::WellKnown => b'(',
            Notation::Json => b'[',
        }
    }

    /// The byte that a list ends with.
    fn close(self) -> u8
        ensures { result ≡ close_of self }
    {
        match self {
            Notation::WellKnown => b')',
            Notation::Json => b']',
        }
    }
}

/// Adds a position of GeoJSON.
fn put_position(text: &mut Vec<u8>, point: Loc) -> Result<(), OutOfMemory>
    ensures text { OnOk result (text.new.items ≡ text.old.items ++ position_json point) }
    ensures kept { OnErr result (KeepsFront text.old.items text.new.items) }
{
    text.push(b'[')?;
    put_both(text, i64::from(point.x), b',', i64::from(point.y))?;
    text.push(b']')?;
    Ok(())
}

/// Adds a point.
fn put_location(text: &mut Vec<u8>, notation: Notation, point: Loc) -> Result<(), OutOfMemory>
    ensures text { OnOk result (text.new.items ≡ text.old.items ++ point_in notation point) }
    ensures kept { OnErr result (KeepsFront text.old.items text.new.items) }
{
    match notation {
        Notation::WellKnown => put_point(text, point),
        Notation::Json => put_position(text, point),
    }
}

/// Adds points, the first behind `lead` and each other behind a comma.
fn put_points(
    text: &mut Vec<u8>,
    notation: Notation,
    lead: u8,
    points: &[Loc],
) -> Result<(), OutOfMemory>
    ensures text { OnOk result (text.new.items ≡ text.old.items
        ++ led_by_byte lead (map (point_in notation) points.now)) }
    ensures kept { OnErr result (KeepsFront text.old.items text.new.items) }
{
    let mut byte = lead;
    for &point in points {
        text.push(byte)?;
        put_location(text, notation, point)?;
        byte = b',';
    }
    Ok(())
}

/// Adds a ring by its path, whose first point stands again at its end.
pub(crate) fn put_ring(
    text: &mut Vec<u8>,
    notation: Notation,
    path: &[Loc],
) -> Result<(), OutOfMemory>
    ensures text { OnOk result (text.new.items ≡ text.old.items ++ ring_in notation path.now) }
    ensures kept { OnErr result (KeepsFront text.old.items text.new.items) }
{
    if path.is_empty() {
        text.push(notation.open())?;
        text.push(notation.close())?;
        return Ok(());
    }
    put_points(text, notation, notation.open(), path)?;
    put_points(text, notation, b',', &path[..1])?;
    text.push(notation.close())?;
    Ok(())
}

/// Adds the locations that edges leave, the first behind `lead` and each other behind a comma.
fn put_starts(
    text: &mut Vec<u8>,
    notation: Notation,
    lead: u8,
    edges: &[Edge],
) -> Result<(), OutOfMemory>
    ensures text { OnOk result (text.new.items ≡ text.old.items
        ++ led_by_byte lead (map (point_in notation) (path_along edges.now))) }
    ensures kept { OnErr result (KeepsFront text.old.items text.new.items) }
{
    let mut byte = lead;
    for edge in edges {
        if let Some(at) = location_at(edge.from) {
            text.push(byte)?;
            put_location(text, notation, at)?;
            byte = b',';
        }
    }
    Ok(())
}

/// Adds a ring by the locations that its edges leave, the first again at the end.
fn put_ring_along(text: &mut Vec<u8>, notation: Notation, edges: &[Edge]) -> Result<(), OutOfMemory>
    ensures text { OnOk result (text.new.items
        ≡ text.old.items ++ ring_in notation (path_along edges.now)) }
    ensures kept { OnErr result (KeepsFront text.old.items text.new.items) }
{
    let Some(first) = first_along(edges) else {
        return put_ring(text, notation, &[]);
    };
    put_starts(text, notation, notation.open(), edges)?;
    put_points(text, notation, b',', &[first])?;
    text.push(notation.close())?;
    Ok(())
}

/// Adds rings, each behind a comma.
fn put_inners(text: &mut Vec<u8>, notation: Notation, rings: &[Ring]) -> Result<(), OutOfMemory>
    ensures text { OnOk result (text.new.items ≡ text.old.items
        ++ led_by_byte 44 (map (ring_in notation) (map path_along rings.now))) }
    ensures kept { OnErr result (KeepsFront text.old.items text.new.items) }
{
    for ring in rings {
        text.push(b',')?;
        put_ring_along(text, notation, ring.as_slice())?;
    }
    Ok(())
}

/// Adds a polygon, its outer ring first.
fn put_polygon(text: &mut Vec<u8>, notation: Notation, polygon: &Polygon) -> Result<(), OutOfMemory>
    ensures text { OnOk result (text.new.items ≡ text.old.items
        ++ polygon_in notation (paths_in polygon.now)) }
    ensures kept { OnErr result (KeepsFront text.old.items text.new.items) }
{
    text.push(notation.open())?;
    put_ring_along(text, notation, polygon.outer.as_slice())?;
    put_inners(text, notation, polygon.inners.as_slice())?;
    text.push(notation.close())?;
    Ok(())
}

/// Adds polygons, the first behind `lead` and each other behind a comma.
fn put_each(
    text: &mut Vec<u8>,
    notation: Notation,
    lead: u8,
    polygons: &[Polygon],
) -> Result<(), OutOfMemory>
    ensures text { OnOk result (text.new.items ≡ text.old.items
        ++ led_by_byte lead (map (polygon_in notation) (paths_of polygons.now))) }
    ensures kept { OnErr result (KeepsFront text.old.items text.new.items) }
{
    let mut byte = lead;
    for polygon in polygons {
        text.push(byte)?;
        put_polygon(text, notation, polygon)?;
        byte = b',';
    }
    Ok(())
}

/// Adds the list of polygons.
pub(crate) fn put_polygons(
    text: &mut Vec<u8>,
    notation: Notation,
    polygons: &[Polygon],
) -> Result<(), OutOfMemory>
    ensures text { OnOk result (text.new.items ≡ text.old.items
        ++ polygon_list_text notation (paths_of polygons.now)) }
    ensures kept { OnErr result (KeepsFront text.old.items text.new.items) }
{
    if polygons.is_empty() {
        text.push(notation.open())?;
        text.push(notation.close())?;
        return Ok(());
    }
    put_each(text, notation, notation.open(), polygons)?;
    text.push(notation.close())?;
    Ok(())
}
