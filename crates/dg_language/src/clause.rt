//! Clauses of `if`.
use crate::queue::Queue;
use dg_bytes::Bytes;

/// A condition and the body that runs where it is true.
#[derive(Drop)]
pub struct Clause {
    pub condition: Bytes,
    pub body: Bytes,
}

/// The clauses of `if`, in order, and the body that runs where no condition is true.
#[derive(Drop)]
pub struct Clauses {
    pub tested: Queue<Clause>,
    pub otherwise: Option<Bytes>,
}
