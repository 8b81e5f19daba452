//! Gaps between chains, and which of them are closed.

use lists::List;

/// A pair of the end of one unclosed chain and the start of one, as their places in the list of chains.
///
/// It has the square of the distance between the two, with the distance in units of 1e-7 degree. Pairs are ordered by this
/// square, then by the name of the ending chain, then by that of the starting chain. Places have the order of names, since
/// chains are in order of name.
#[derive(Clone, Copy, Debug, PartialEq, Eq, PartialOrd, Ord)]
pub struct Gap {
    pub square: u128,
    pub from_chain: usize,
    pub to_chain: usize,
}

/// Which unclosed chains are closed, as places in the list of chains.
///
/// They are the chains round Antarctica, and the pairs of ends and starts that are joined, in their order.
#[derive(Debug, Drop)]
pub struct Closings {
    pub antarctica: Indexes,
    pub gaps: Gaps,
}

/// Gaps, in order.
pub type Gaps = List<Gap>;

/// Places in a list, in order.
pub type Indexes = List<usize>;
