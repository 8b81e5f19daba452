//! Why the words of a run aren't taken.

use clap::error::ErrorKind;

/// Why the words of a run aren't taken.
#[derive(Clone, Copy, Debug, PartialEq, Eq)]
pub enum WordsFault {
    /// There are no words.
    NoCommand,
    /// The first word names no command.
    UnknownCommand,
    /// The command's parser refuses the words behind its name, with this kind of `clap`'s.
    Refused { kind: ErrorKind },
    /// The option with this letter has a value that isn't one of its own. The number of `sample` counts as one with `N`,
    /// and two names of `certify` or `locate` that are both `-` count as one with `t`.
    OutOfRange { option: char },
}

/// Why nothing is known of what the words ask for.
#[derive(Clone, Copy, Debug, PartialEq, Eq)]
pub enum WordsError {
    BadWords { cause: WordsFault },
    OutOfMemory,
}
