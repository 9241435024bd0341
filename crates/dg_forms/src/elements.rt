//! Texts that carry their lists.
ghost use Rattle.std.specs.Prelude.{◌≡◌, MatchResult, Ok, Err};
ghost use Rattle.dg_language.specs.Evaluation.{list_in};

use crate::lists::elements_in;
use dg_bytes::{Bytes, Seq};
use dg_shelf::Reading;
use std::alloc::{AllocError, Global};
use std::marker::Model;

/// The elements of a text as a list, or the message of one that can't be read. A contract sees these.
#[derive(Drop)]
pub struct Elements {
    read: Result<Seq<Bytes>, Bytes>,
}

impl Model for Elements {
    ghost use Rattle.std.specs.Prelude.{ℕ, List, Result};

    ghost Value = { Result (List (List ℕ)) (List ℕ) };

    ghost view = { λ e. e.read };
}

impl Elements {
    /// The elements, or the message.
    pub fn get(&self) -> Result<&[Bytes], &Bytes>
        ensures { MatchResult result (λ es. self.now ≡ Ok es.now) (λ m. self.now ≡ Err m.now) }
    {
        match &self.read {
            Ok(elements) => Ok(elements.as_slice()),
            Err(message) => Err(message),
        }
    }
}

impl Reading for Elements {
    ghost read_of = { list_in };

    fn read(alloc: Global, text: &[u8]) -> Result<Elements, AllocError> {
        let read = elements_in(alloc, text)?;
        Ok(Elements { read })
    }
}
