//! Words of a command while they are being made.
ghost use Rattle.std.specs.Prelude.{◌≡◌, ◌<◌, ◌^◌, [], length, IfOk};
ghost use Rattle.dg_language.specs.Control.{head_or_empty};

use crate::stack::Stack;
use dg_bytes::{Bytes, Seq, TryCopy};
use dg_language::{Purpose, Queue, Substitution};
use std::alloc::{AllocError, Global};

/// The words of a command while they are being made.
#[derive(Drop)]
pub struct Making {
    /// The use of the words.
    pub purpose: Purpose,
    /// The words that are made.
    pub made: Seq<Bytes>,
    /// The name of each element whose index is being made, and the text before it; the innermost on top.
    pub outer: Stack<(Bytes, Bytes)>,
    /// The part of the next word, or of the innermost index, that is made.
    pub text: Bytes,
    /// The steps that are left.
    pub left: Queue<Substitution>,
}

impl Making {
    /// No word is made. That the steps are counted by a `usize` bounds what they weigh.
    pub fn begun(alloc: Global, purpose: Purpose, left: Queue<Substitution>) -> Making
        ensures begun { result ≡ record { purpose = purpose; made = []; outer = []; text = []; left = left } }
        ensures counted { length left < 2 ^ 64 }
    {
        // The call shows the proof that the length is a `usize`.
        let _count = left.len();
        Making {
            purpose,
            made: Seq::new(alloc),
            outer: Stack::new(alloc),
            text: Bytes::new(alloc),
            left,
        }
    }
}

/// The first value, or the empty text where there is none.
pub fn first_or_empty(alloc: Global, values: &[Bytes]) -> Result<Bytes, AllocError>
    ensures { IfOk result (λ b. b ≡ head_or_empty values.now) }
{
    match values {
        [] => Ok(Bytes::new(alloc)),
        [first, ..] => first.copy(alloc),
    }
}
