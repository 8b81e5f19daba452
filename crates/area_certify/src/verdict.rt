//! What the certifier answers.

/// Whether a text is right.
#[derive(Clone, Copy, Debug, PartialEq, Eq)]
pub enum Verdict {
    /// All lines are right, and none is missing.
    Yes,
    /// This line, counted from 1, is the first that isn't right, or the first that is missing.
    No { line: u64 },
}
