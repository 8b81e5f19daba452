//! The line of a point.

ghost use Rattle.std.specs.Prelude.{◌≡◌, ◌++◌, OnOk};
ghost use Rattle.std.specs.List.{flat_map};
ghost use Rattle.job_small.specs.Locating.Lines.{area_text, hit_text, hits_text, point_line};

use area_locate::{Found, Hit};
use osm_elements::ObjectRef;
use osm_notation::{put_number, put_point};
use osm_objects::area_id;
use std::alloc::AllocError as OutOfMemory;

/// Adds the id of a candidate's area.
fn put_area(line: &mut Vec<u8>, of: ObjectRef) -> Result<(), OutOfMemory>
    ensures { OnOk result (line.new.items ≡ line.old.items ++ area_text of) }
{
    let Some(id) = area_id(of) else {
        return Ok(());
    };
    line.push(b'a')?;
    put_number(line, id)
}

/// Adds a hit: whether the area holds the point or has it on it, and the area.
fn put_hit(line: &mut Vec<u8>, hit: Hit) -> Result<(), OutOfMemory>
    ensures { OnOk result (line.new.items ≡ line.old.items ++ hit_text hit) }
{
    let side = if hit.on { " on " } else { " in " };
    line.extend_from_slice(side.as_bytes())?;
    put_area(line, hit.of)
}

/// Adds hits, one after the other.
fn put_each(line: &mut Vec<u8>, hits: &[Hit]) -> Result<(), OutOfMemory>
    ensures { OnOk result (line.new.items ≡ line.old.items ++ flat_map hit_text hits.now) }
{
    for &hit in hits {
        put_hit(line, hit)?;
    }
    Ok(())
}

/// Adds the hits of a point, or that there are none.
fn put_hits(line: &mut Vec<u8>, hits: &[Hit]) -> Result<(), OutOfMemory>
    ensures { OnOk result (line.new.items ≡ line.old.items ++ hits_text hits.now) }
{
    if hits.is_empty() {
        line.extend_from_slice(b" none")?;
        return Ok(());
    }
    put_each(line, hits)
}

/// Adds the line of a point.
pub(crate) fn put_line(line: &mut Vec<u8>, found: &Found) -> Result<(), OutOfMemory>
    ensures { OnOk result (line.new.items ≡ line.old.items ++ point_line found.now) }
{
    put_point(line, found.at)?;
    line.push(b':')?;
    put_hits(line, found.hits.as_slice())?;
    line.push(b'\n')?;
    Ok(())
}
