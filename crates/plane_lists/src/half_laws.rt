//! Halves in the plane: what a sided list of edges leaves on one side of a line, closed along the line.

pub mod half;
