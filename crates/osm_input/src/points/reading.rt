//! A text of points, read line by line.

ghost use Rattle.std.specs.Prelude.{◌≡◌, ◌+◌, ◌∷◌, length, IfErr, IfOk};
ghost use Rattle.std.specs.Option.{option_copied};
ghost use Rattle.osm_input.specs.PointLines.Points.{ArePoints, lines_parted};
ghost use Rattle.osm_input.specs.PointLines.Errors.{IsErrorOf};
ghost use Rattle.osm_input.specs.PointLines.LineSteps.{len_left, lines_left};

use crate::points::line::{Told, told_by};
use memchr::memchr;
use osm_lattice::Loc;
use std::alloc::Global;

/// Why a text isn't read as points.
#[derive(Clone, Copy, Debug, PartialEq, Eq)]
pub enum PointsError {
    /// This line, counted from 1, is the first that is neither passed over nor tells a point.
    BadPoint { line: u64 },
    /// Memory ran out.
    OutOfMemory,
}

/// The first line of a text, and the text after its LF.
fn next_line(text: &[u8]) -> (&[u8], Option<&[u8]>)
    ensures lines { lines_parted text.now ≡ result.0.now ∷ lines_left (option_copied result.1) }
    ensures len { length result.0.now + len_left (option_copied result.1) ≡ length text.now }
{
    match memchr(b'\n', text) {
        Some(end) => (&text[..end], Some(&text[end + 1..])),
        None => (text, None),
    }
}

/// The points that the lines of a text tell, in order.
///
/// A line is a longitude and a latitude in degrees, each a decimal, with spaces or tabs between, before and after them. They
/// are within 180 and 90 degrees once the eighth digit after the point has rounded. An empty line and one whose first word
/// begins with `#` are passed over, and a CR at a line's end doesn't count.
///
/// `BadPoint` comes exactly if some line is none of these, and names the first. No line is copied.
pub fn read_points(alloc: Global, text: &[u8]) -> Result<Vec<Loc>, PointsError>
    ensures points { IfOk result (λ points. ArePoints text.now points.items) }
    ensures bad { IfErr result (IsErrorOf text.now) }
{
    let mut points = Vec::new(alloc);
    let mut number: u64 = 0;
    let mut left = Some(text);
    while let Some(rest) = left {
        let (line, more) = next_line(rest);
        number += 1;
        match told_by(line) {
            Told::Nothing => {}
            Told::Point(point) => {
                let Ok(()) = points.push(point) else {
                    return Err(PointsError::OutOfMemory);
                };
            }
            Told::Bad => return Err(PointsError::BadPoint { line: number }),
        }
        left = more;
    }
    Ok(points)
}
