//! The answer for a pattern: read, or why not.

/// How the text of a `-re` pattern was read.
#[derive(Clone, Copy, Debug, PartialEq, Eq, Hash)]
pub enum Reading {
    /// It is a pattern, and was built.
    Read,
    /// It is none, or one that nests too deep.
    Syntax,
    /// It is a pattern that takes too much room when built.
    TooLarge,
}
