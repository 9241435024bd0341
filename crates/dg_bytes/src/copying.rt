//! Copies that fail only where memory runs out.
ghost use Rattle.std.specs.Prelude.{◌≡◌, IfOk};

use crate::bytes::Bytes;
use crate::seq::Seq;
use std::alloc::{AllocError, Global};

/// A value of which an equal one can be made.
pub trait TryCopy: Sized {
    /// An equal value, or want of memory.
    fn copy(&self, alloc: Global) -> Result<Self, AllocError>
        ensures { IfOk result (λ v. v ≡ self.now) };
}

impl TryCopy for Bytes {
    fn copy(&self, alloc: Global) -> Result<Bytes, AllocError> {
        self.share(alloc)
    }
}

impl<T: TryCopy + Drop> TryCopy for Seq<T> {
    fn copy(&self, alloc: Global) -> Result<Seq<T>, AllocError> {
        let mut copies = Vec::new(alloc);
        for item in self.as_slice() {
            copies.push(item.copy(alloc)?)?;
        }
        Ok(Seq::from_vec(copies))
    }
}
