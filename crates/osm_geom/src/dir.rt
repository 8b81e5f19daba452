//! Directions.
ghost use Rattle.osm_geom.specs.Steps.{IsStepInRange, IsNonzeroStep};

/// A direction, as a step in units of 1e-7 degree. Longer steps the same way are the same direction.
#[derive(Clone, Copy, Debug, PartialEq, Eq)]
pub struct Dir {
    pub dx: i64,
    pub dy: i64,
    pub ghost dx_in: { IsStepInRange dx },
    pub ghost dy_in: { IsStepInRange dy },
    pub ghost nonzero: { IsNonzeroStep dx dy },
}
