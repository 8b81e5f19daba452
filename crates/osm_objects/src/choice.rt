//! Which closed ways are areas.

ghost use Rattle.std.specs.Prelude.{◌≡◌};
ghost use Rattle.osm_objects.specs.Candidates.{has_key_or_any, has_no_key, is_area_way, without_lists};

use crate::tags::{has_one_of, is_tagged};
use lists::List;
use osm_elements::{Tags, Text};

/// Keys of tags, such as `building` and `landuse`, in any order and with any repetition.
pub type Keys = List<Text>;

/// Which objects are taken for candidates.
#[derive(Debug, Drop)]
pub struct Choice {
    /// Whether objects are taken, too, whose area would have no tag.
    pub keep_untagged: bool,
    /// Keys of areas: if they are given, a closed way is an area only if it has one of them or `area=yes`.
    pub area_keys: Option<Keys>,
    /// Keys of lines: if they are given, a closed way is an area only if it has none of them or `area=yes`.
    pub linear_keys: Option<Keys>,
}

impl Choice {
    /// The choice without lists of keys: a closed way is an area unless its tag `area` is `no`.
    pub fn without_lists(keep_untagged: bool) -> Choice
        ensures { result ≡ without_lists keep_untagged }
    {
        Choice {
            keep_untagged,
            area_keys: None,
            linear_keys: None,
        }
    }

    /// Whether a closed way with these tags is an area: `area=yes` and `area=no` decide before keys do.
    pub(crate) fn is_area_way(&self, tags: &Tags) -> bool
        ensures { result ≡ is_area_way self.now tags.now }
    {
        is_tagged(tags, "area", "yes")
            || (!is_tagged(tags, "area", "no")
                && has_no_key(&self.linear_keys, tags)
                && has_key_or_any(&self.area_keys, tags))
    }
}

/// Whether the tags have none of the keys, or no keys are given.
fn has_no_key(keys: &Option<Keys>, tags: &Tags) -> bool
    ensures { result ≡ has_no_key keys.now tags.now }
{
    match keys {
        Some(keys) => !has_one_of(keys.as_slice(), tags),
        None => true,
    }
}

/// Whether the tags have one of the keys, or no keys are given.
fn has_key_or_any(keys: &Option<Keys>, tags: &Tags) -> bool
    ensures { result ≡ has_key_or_any keys.now tags.now }
{
    match keys {
        Some(keys) => has_one_of(keys.as_slice(), tags),
        None => true,
    }
}
