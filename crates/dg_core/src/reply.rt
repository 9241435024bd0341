//! What a report answers.
ghost use Rattle.std.specs.Prelude.{◌≡◌, IfOk};

use dg_bytes::{Bytes, Seq, TryCopy};
use dg_world::TestId;
use std::alloc::{AllocError, Global};

/// What a report answers.
#[derive(Drop)]
pub enum Reply {
    /// The bytes of the `.sum` report, and the exit status.
    Sum(Bytes, u8),
    /// The selected tests, in order, that have no kept record which holds; there is at least one.
    Pending(Seq<TestId>),
}

impl Reply {
    /// An equal reply, or want of memory.
    pub fn copy(&self, alloc: Global) -> Result<Reply, AllocError>
        ensures { IfOk result (λ r. r ≡ self.now) }
    {
        Ok(match self {
            Reply::Sum(text, status) => Reply::Sum(text.copy(alloc)?, *status),
            Reply::Pending(tests) => Reply::Pending(copies(alloc, tests)?),
        })
    }
}

/// Copies of tests, in order.
fn copies(alloc: Global, tests: &Seq<TestId>) -> Result<Seq<TestId>, AllocError>
    ensures { IfOk result (λ l. l ≡ tests.now) }
{
    let mut copies = Vec::new(alloc);
    for test in tests.as_slice() {
        copies.push(test.copy(alloc)?)?;
    }
    Ok(Seq::from_vec(copies))
}
