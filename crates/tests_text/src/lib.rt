//! Tests of features, pieces and reports in print.
#![tactic(auto)]

#[cfg(test)]
mod coasts;
#[cfg(test)]
mod features;
#[cfg(test)]
mod pieces;
#[cfg(test)]
mod shapes;
