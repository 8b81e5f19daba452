//! The place of a segment in the status of a sweep upwards, when it leaves.
ghost use Rattle.std.specs.Prelude.{◌≡◌, ◌<◌, IfSome, length, slice_index_or, true};

use chunked_list::ChunkedList;
use osm_lattice::{Seg, compare_to_line};

/// Whether `t` is left of `s` just below the upper end of `s`, if both reach that height.
///
/// Only the speed of the search depends on it.
fn is_left_below(t: Seg, s: Seg) -> bool {
    let end = compare_to_line(s.b, t);
    end.is_gt() || end.is_eq() && compare_to_line(s.a, t).is_gt()
}

/// Whether a segment is at a place.
fn is_at(status: &ChunkedList<Seg>, place: usize, s: Seg) -> bool
    ensures inside { result ≡ true → place < length status.now }
    ensures at { result ≡ true → slice_index_or status.now place s ≡ s }
{
    place < status.len() && status.get(place) == s
}

/// The place of a segment, if it is where the status changed last, or next to that.
fn find_near(status: &ChunkedList<Seg>, s: Seg) -> Option<usize>
    ensures inside { IfSome result (λ place. place < length status.now) }
    ensures at { IfSome result (λ place. slice_index_or status.now place s ≡ s) }
{
    for place in status.places_near_change() {
        if is_at(status, place, s) {
            return Some(place);
        }
    }
    None
}

/// The place of a segment in the status of a sweep upwards, if it is found. The status stays as it is.
///
/// It is found near where the status changed last, or just after those that are left of it below its upper end.
///
/// Ways: the four places next to where the status changed last; all others by a search.
pub fn place_in_status(status: &mut ChunkedList<Seg>, s: Seg) -> Option<usize>
    ensures kept { status.new ≡ status.old }
    ensures inside { IfSome result (λ place. place < length status.old) }
    ensures at { IfSome result (λ place. slice_index_or status.old place s ≡ s) }
{
    if let Some(place) = find_near(status, s) {
        return Some(place);
    }
    let place = status.partition_point(|t| is_left_below(*t, s));
    if is_at(status, place, s) {
        return Some(place);
    }
    None
}
