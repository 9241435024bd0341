//! The calls of a test's result commands.
use dg_bytes::Bytes;

/// A call of a result command with its message, of a message command with its message and the count
/// that it gives, if it gives one, or of a setup or clear of a flag whose pattern matched (DejaGnu
/// manual, "Procedures for test results").
#[derive(Drop)]
pub enum ResultCall {
    Pass(Bytes),
    Fail(Bytes),
    Unresolved(Bytes),
    Untested(Bytes),
    Unsupported(Bytes),
    Note(Bytes),
    Perror(Bytes, Option<u32>),
    Warning(Bytes, Option<u32>),
    SetupXfail,
    ClearXfail,
    SetupKfail,
    ClearKfail,
}
