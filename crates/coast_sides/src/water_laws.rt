//! Laws of water. Each function has an empty body, or only calls laws; its contract is the law.
ghost use Rattle.coast_sides.specs.Water.{IsClearOfSide, LandAndWaterCover, WaterCoversTheRest, WaterIsClear, WaterIsEven};
ghost use Rattle.coast_sides.specs.Water.{is_east, is_north, is_south, is_west};

use osm_geom::{conflicts_are_symmetric, orders_are_exact};

/// What is left of land and the world's sides covers a point strictly within the world exactly where land doesn't.
pub fn water_covers_the_rest()
    ensures { WaterCoversTheRest }
{
    orders_are_exact();
}

/// What is left of land and the world's sides is even at each location, where land is.
pub fn water_is_even()
    ensures { WaterIsEven }
{
    orders_are_exact();
}

/// A segment doesn't conflict with the pieces of a side of the world if it meets the side only at nodes.
///
/// That is, its ends on the side are among the nodes at which the side is cut, and none of these nodes is inside it.
pub fn sides_are_clear()
    ensures south { IsClearOfSide is_south }
    ensures east { IsClearOfSide is_east }
    ensures north { IsClearOfSide is_north }
    ensures west { IsClearOfSide is_west }
{
    orders_are_exact();
}

/// What is left of land without conflicts and the world's sides has no conflict.
pub fn water_is_clear()
    ensures { WaterIsClear }
{
    orders_are_exact();
    conflicts_are_symmetric();
}

/// Land and water cover the world: at each point of whole coordinates strictly within it, one of them has the signed count 1
/// and the other 0.
pub fn land_and_water_cover()
    ensures { LandAndWaterCover }
{
    water_covers_the_rest();
    orders_are_exact();
}
