//! How an evaluation ends.

/// The code with which an evaluation ends, by catch(n).
#[derive(Clone, Copy, Debug, PartialEq, Eq)]
pub enum Code {
    /// All is well, and there is a value.
    Done,
    /// A Tcl error, whose value is its message.
    Failed,
    /// `return`, with its value.
    Returned,
    /// `break`.
    Broken,
    /// `continue`.
    Continued,
    /// `exp_continue`.
    ExpContinued,
}
