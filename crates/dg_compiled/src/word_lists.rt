//! Words that stand as a list in one argument, as those of `expect` may, read once.
ghost use Rattle.std.specs.Prelude.{◌≡◌, ℕ, IfOk, MatchResult};
ghost use Rattle.dg_lists.specs.Faults.{fault_text};
ghost use Rattle.dg_language.specs.Evaluation.{Then, fail};
ghost use Rattle.dg_compiled.specs.Making.{making_on};
ghost use Rattle.dg_compiled.specs.WordLists.{word_list_in, words_on};

use crate::making::Making;
use crate::steps::kept_steps;
use crate::texts::begun_with;
use dg_bytes::Seq;
use dg_forms::substitutions_of;
use dg_language::{Purpose, State, Substitution};
use dg_lists::WordFault;
use dg_shelf::Reading;
use dg_words::parse_words;
use std::alloc::{AllocError, Global};

/// The words of a list: the steps in which they are made, or why the list can't be read.
#[derive(Drop)]
pub enum WordList {
    Words(Seq<Substitution>),
    Unreadable(WordFault),
}

impl Reading for WordList {
    ghost read_of = { λ text. word_list_in text };

    fn read(alloc: Global, text: &[u8]) -> Result<WordList, AllocError> {
        match parse_words(alloc, text) {
            Ok(words) => {
                let steps = kept_steps(alloc, substitutions_of(alloc, words.as_slice())?)?;
                Ok(WordList::Words(steps))
            }
            Err(WordFault::Memory) => Err(AllocError),
            Err(fault) => Ok(WordList::Unreadable(fault)),
        }
    }
}

impl WordList {
    /// The words begin to be made: steps that are only texts and values of variables in use are taken at once. Or why the
    /// list can't be read.
    pub fn begun(
        &self,
        alloc: Global,
        state: &State,
        purpose: Purpose,
    ) -> Result<Result<Making, WordFault>, AllocError>
        ensures same { IfOk result (λ r. MatchResult r
            (λ m. (depth : ℕ) (k : Then) → making_on m depth state.now k ≡ words_on self.now purpose depth state.now k)
            (λ fault. (depth : ℕ) (k : Then) → fail (fault_text fault) state.now k ≡ words_on self.now purpose depth
            state.now k)) }
        ensures purpose { IfOk result (λ r. IfOk r (λ m. m.purpose ≡ purpose)) }
    {
        match self {
            WordList::Words(steps) => {
                Ok(Ok(begun_with(alloc, state, purpose, steps.as_slice())?))
            }
            WordList::Unreadable(fault) => Ok(Err(*fault)),
        }
    }
}
