//! Tests of coastlines: chains and gaps, sides of land and water, and pieces.
#![tactic(auto)]

#[cfg(test)]
mod chaining;
#[cfg(test)]
mod cutting;
#[cfg(test)]
mod gaps;
#[cfg(test)]
mod halves;
#[cfg(test)]
mod leaves;
#[cfg(test)]
mod reading;
#[cfg(test)]
mod sides;
