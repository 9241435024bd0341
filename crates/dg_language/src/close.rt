//! How the judging of a test ends.

/// How the judging of a test has ended.
#[derive(Clone, Copy, Debug, PartialEq, Eq)]
pub enum Close {
    /// The script came to its end.
    Finished,
    /// A Tcl error ended it, or a limit other than that of steps.
    Aborted,
    /// No step was left.
    OutOfSteps,
    /// A child did not do what the script asked of it: the test departed from its transcript.
    Departed,
}
