//! The usual texts of tags, each coded as one byte.

ghost use Rattle.std.specs.Prelude.{◌≡◌, ◌≤◌, ◌<◌, [], length, map, slice_index_or, IfSome};
ghost use Rattle.osm_elements.specs.Packed.{usual_text};

/// Usual keys, then usual values and roles: those that take the most bytes in OpenStreetMap.
const USUAL: [&str; 63] = [
    "access",
    "addr:city",
    "addr:country",
    "addr:housenumber",
    "addr:postcode",
    "addr:state",
    "addr:street",
    "addr:suburb",
    "admin_level",
    "amenity",
    "barrier",
    "bicycle",
    "building",
    "building:levels",
    "crossing",
    "height",
    "highway",
    "landuse",
    "lanes",
    "layer",
    "leisure",
    "man_made",
    "maxspeed",
    "name",
    "natural",
    "oneway",
    "operator",
    "power",
    "railway",
    "ref",
    "service",
    "source",
    "surface",
    "tracktype",
    "type",
    "water",
    "waterway",
    "apartments",
    "asphalt",
    "coastline",
    "detached",
    "driveway",
    "farmland",
    "footway",
    "forest",
    "garage",
    "grass",
    "house",
    "inner",
    "multipolygon",
    "no",
    "outer",
    "private",
    "residential",
    "stream",
    "tertiary",
    "tower",
    "track",
    "tree",
    "unclassified",
    "unpaved",
    "wood",
    "yes",
];

/// The byte of the first of them; a lesser byte is a length.
pub(crate) const FIRST_CODE: u8 = 192;

/// For each sum the place in `USUAL` of the text with this sum, of which there is at most one; 63 if there is none.
const PLACES: [u8; 256] = [
    46, 63, 63, 16, 63, 63, 63, 63, 0, 63, 57, 29, 63, 8, 63, 63, 37, 63, 63, 32, 63, 56, 45, 63,
    63, 63, 63, 63, 10, 63, 21, 31, 63, 63, 63, 30, 63, 63, 63, 63, 4, 63, 54, 63, 5, 26, 38, 63,
    63, 63, 63, 63, 13, 63, 63, 63, 25, 6, 63, 63, 58, 63, 48, 60, 51, 63, 33, 63, 63, 24, 63, 34,
    23, 63, 63, 63, 63, 63, 63, 63, 63, 59, 63, 15, 47, 63, 63, 63, 41, 63, 63, 49, 11, 63, 63, 63,
    63, 63, 63, 63, 63, 63, 63, 63, 63, 63, 63, 63, 63, 27, 63, 63, 63, 63, 63, 63, 63, 63, 63, 40,
    63, 63, 63, 63, 63, 63, 63, 63, 63, 39, 63, 36, 63, 63, 63, 63, 63, 63, 63, 63, 63, 12, 63, 63,
    35, 63, 63, 63, 63, 63, 63, 63, 63, 63, 63, 63, 63, 63, 63, 63, 63, 61, 63, 63, 63, 52, 63, 63,
    50, 63, 63, 28, 63, 63, 63, 1, 63, 63, 63, 63, 63, 63, 63, 63, 63, 63, 63, 43, 63, 63, 63, 63,
    63, 63, 63, 7, 63, 63, 14, 19, 63, 63, 63, 63, 63, 63, 63, 63, 63, 63, 63, 63, 42, 63, 63, 63,
    63, 63, 63, 63, 63, 53, 63, 18, 63, 63, 63, 9, 2, 63, 63, 63, 63, 63, 63, 17, 63, 63, 63, 63,
    63, 63, 63, 3, 63, 63, 63, 63, 62, 63, 20, 63, 55, 44, 22, 63,
];

/// A sum of a text's first, middle and last byte, modulo 256.
/// The factors were chosen so that no two usual texts have the same.
fn sum_of(text: &[u8]) -> u8 {
    let (Some(first), Some(middle), Some(last)) = (
        text.first(),
        text.get(text.len() / 2),
        text.last(),
    ) else {
        return 0;
    };
    first
        .wrapping_mul(42)
        .wrapping_add(last.wrapping_mul(35))
        .wrapping_add(*middle)
}

/// The text at a place of a table.
#[inline(always)]
fn text_at(texts: &[&'static str], place: usize) -> &'static str
    requires { place < length texts.now }
    ensures { result.now ≡ slice_index_or (map (λ t. t.now) texts.now) place [] }
{
    texts[place]
}

/// The text that a byte codes.
#[tactic(auto, unfolding(crate::specs::Packed::usual_text))]
pub(crate) fn usual_text(code: u8) -> &'static str
    requires { (192 ≤ code) × (code < 255) }
    ensures { result.now ≡ usual_text code }
{
    text_at(&USUAL, usize::from(code - FIRST_CODE))
}

/// The byte that codes a text; None if none does. No clause says the latter: a wrong None would only take more memory.
pub(crate) fn usual_code(text: &str) -> Option<u8>
    ensures code { IfSome result (λ code. (192 ≤ code) × (code < 255)) }
    ensures text { IfSome result (λ code. usual_text code ≡ text.now) }
{
    let place = PLACES[usize::from(sum_of(text.as_bytes()))];
    if usize::from(place) >= USUAL.len() {
        return None;
    }
    let code = FIRST_CODE + place;
    if usual_text(code) != text {
        return None;
    }
    Some(code)
}
