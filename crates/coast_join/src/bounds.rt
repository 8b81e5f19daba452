//! What is known of where several sites lie.

ghost use Rattle.std.specs.Prelude.{◌≤◌, ◌≤ℤ◌, ◌-ℤ◌, ℤ, All, unsigned_abs};
ghost use Rattle.coast_join.specs.declared.sites.Site.{Site};
ghost use Rattle.coast_join.specs.Closings.{square_between};
ghost use Rattle.coast_join.specs.SiteTrees.{IsInBounds};

use crate::sites::{Site, square};
use osm_geom::Loc;

/// A rectangle that has all of some sites in it, and the least place of their chains.
#[derive(Clone, Copy)]
pub(crate) struct Bounds {
    pub(crate) west: i32,
    pub(crate) east: i32,
    pub(crate) south: i32,
    pub(crate) north: i32,
    pub(crate) least: usize,
}

impl Bounds {
    /// The bounds of no sites.
    pub(crate) fn none() -> Self {
        Bounds {
            west: i32::MAX,
            east: i32::MIN,
            south: i32::MAX,
            north: i32::MIN,
            least: usize::MAX,
        }
    }

    /// Whether the rectangle is at least as wide as it is high.
    pub(crate) fn is_wide(self) -> bool {
        self.north.abs_diff(self.south) <= self.east.abs_diff(self.west)
    }
}

/// The lesser of two numbers.
fn lesser(a: i32, b: i32) -> i32
    ensures first { result ≤ℤ a }
    ensures second { result ≤ℤ b }
{
    if a <= b { a } else { b }
}

/// The greater of two numbers.
fn greater(a: i32, b: i32) -> i32
    ensures first { a ≤ℤ result }
    ensures second { b ≤ℤ result }
{
    if a <= b { b } else { a }
}

/// The bounds of one more site.
fn widened(bounds: Bounds, site: Site) -> Bounds
    ensures here { IsInBounds result site }
    ensures others { (s : Site) → IsInBounds bounds s → IsInBounds result s }
{
    let west = lesser(bounds.west, site.at.x);
    let east = greater(bounds.east, site.at.x);
    let south = lesser(bounds.south, site.at.y);
    let north = greater(bounds.north, site.at.y);
    let least = bounds.least.min(site.chain);
    Bounds {
        west,
        east,
        south,
        north,
        least,
    }
}

/// The bounds of sites.
pub(crate) fn bounds_of(sites: &[Site]) -> Bounds
    ensures { All (IsInBounds result) sites.now }
{
    let mut bounds = Bounds::none();
    for &site in sites {
        bounds = widened(bounds, site);
    }
    bounds
}

/// How far a location lies west or east of the rectangle: no farther than from any longitude in it.
fn outside_across(at: Loc, bounds: Bounds) -> u32
    ensures { (x : ℤ) → bounds.west ≤ℤ x → x ≤ℤ bounds.east → result ≤ unsigned_abs (at.x -ℤ x) }
{
    if at.x < bounds.west {
        return bounds.west.abs_diff(at.x);
    }
    if bounds.east < at.x {
        return at.x.abs_diff(bounds.east);
    }
    0
}

/// How far it lies south or north of the rectangle.
fn outside_along(at: Loc, bounds: Bounds) -> u32
    ensures { (y : ℤ) → bounds.south ≤ℤ y → y ≤ℤ bounds.north
        → result ≤ unsigned_abs (at.y -ℤ y) }
{
    if at.y < bounds.south {
        return bounds.south.abs_diff(at.y);
    }
    if bounds.north < at.y {
        return at.y.abs_diff(bounds.north);
    }
    0
}

/// The square of the distance from a location to the rectangle: at most that to any of the sites.
pub(crate) fn square_to(at: Loc, bounds: Bounds) -> u128
    ensures { (s : Site) → IsInBounds bounds s → result ≤ square_between at s.at }
{
    let across = outside_across(at, bounds);
    let along = outside_along(at, bounds);
    let wide = square(across);
    let high = square(along);
    wide + high
}
