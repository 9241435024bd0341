//! How the words of a command are made, by Tcl(n).
use dg_bytes::Bytes;

/// What the words that are made are for.
#[derive(Clone, Copy, Debug, PartialEq, Eq)]
pub enum Purpose {
    /// They are a command, which runs.
    Run,
    /// The first is an operand of an expression.
    Load,
    /// They are the words of `expect`.
    Expect,
}

/// A step in the making of a command's words, from left to right.
#[derive(Drop)]
pub enum Substitution {
    /// This text is added.
    Literal(Bytes),
    /// The value of this variable is added.
    Variable(Bytes),
    /// The index of an element of this name begins.
    IndexBegins(Bytes),
    /// The index has ended, and the value of its element is added.
    IndexEnds,
    /// The value of this script is added.
    Script(Bytes),
    /// A word has ended.
    WordEnds,
    /// A word has ended whose elements become words.
    ListEnds,
}
