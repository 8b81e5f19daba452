//! What becomes of chains.

use crate::chain::Chains;
use coast_rings::CoastRings;

/// What becomes of the chains: the rings, and the chains that are not closed, each in order of name.
#[derive(Debug, Drop)]
pub struct Joined {
    pub rings: CoastRings,
    pub unclosed: Chains,
}
