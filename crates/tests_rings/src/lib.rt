//! Tests of sides, rings and nesting: the directions of edges, the rings that they are cut into, and the polygons of these.
#![tactic(auto)]

#[cfg(test)]
mod directing;
#[cfg(test)]
mod drawing;
#[cfg(test)]
mod nested;
#[cfg(test)]
mod walks;
