//! Conflicting segments by their places in a list.

/// Two places in a list of segments, the lesser first.
#[derive(Clone, Copy, Debug, PartialEq, Eq, PartialOrd, Ord)]
pub struct Places {
    pub first: u32,
    pub second: u32,
}
