//! Why a gate or an asker did not answer.
use dg_transcript::ErrorCode;
use thiserror::Error;

/// Why a gate did not do what it was asked.
#[derive(Clone, Copy, Debug, PartialEq, Eq, Error)]
pub enum GateFault {
    /// The child, or the system, refused. The code says how, in the numbers that a transcript
    /// has: 1 there is no such program (ENOENT), 2 it is not permitted (EACCES, EPERM), 3 nobody
    /// reads the other end of the pipe (EPIPE), 4 any other cause.
    #[error("the call of the child failed")]
    Device(ErrorCode),
    /// Memory ran out.
    #[error("out of memory")]
    Memory,
}

/// Why an asker did not answer a question.
#[derive(Clone, Copy, Debug, PartialEq, Eq, Error)]
pub enum AskFault {
    /// It refused; the asker keeps why.
    #[error("the question was refused")]
    Refused,
    /// Memory ran out.
    #[error("out of memory")]
    Memory,
}
