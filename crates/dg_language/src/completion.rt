//! What a command comes to that evaluates nothing inside and asks nothing.
use crate::code::Code;
use crate::procedure::Procedure;
use dg_bytes::Bytes;
use dg_results::ResultCall;

/// What such a command changes.
#[derive(Drop)]
pub enum Change {
    /// Nothing.
    Nothing,
    /// This result call is made.
    Calls(ResultCall),
    /// A key of the board that has no setting gets this one.
    Sets(Bytes, Bytes),
    /// A key of the board has no setting any more.
    Unsets(Bytes),
    /// This procedure has this name.
    Defines(Bytes, Procedure),
}

/// The code and the value with which a command completes, and what it changes.
#[derive(Drop)]
pub struct Completion {
    pub code: Code,
    pub value: Bytes,
    pub change: Change,
}
