//! Tests of exact geometry, and of what survives and conflicts.
#![tactic(auto)]

#[cfg(test)]
mod cuts;
#[cfg(test)]
mod edges;
#[cfg(test)]
mod lattice;
#[cfg(test)]
mod reading;
#[cfg(test)]
mod segments;
#[cfg(test)]
mod surviving;
