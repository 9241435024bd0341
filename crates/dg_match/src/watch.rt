//! Memory of the texts that `-re` patterns need.
ghost use Rattle.std.specs.Prelude.{◌≡◌, ◌≤◌, List, ℕ, [], All, IsTrue, IfOk, None, drop, false, length, map};
ghost use Rattle.regex_extract.specs.Needles.{needles_of};
ghost use Rattle.dg_match.specs.Groups.{regex_match};
ghost use Rattle.dg_match.specs.Literals.{IsNowhere};
ghost use Rattle.dg_match.specs.Needs.{NeedsOneOf};
ghost use Rattle.dg_match.specs.Starts.{AllKept};

use crate::needs::Needs;
use crate::starts::{Kind, Starts};
use std::alloc::{AllocError, Global};
use std::marker::Model;

/// The texts that the last try of a list of patterns has looked for in place of matches, in their
/// order. A contract sees how many places each has passed.
#[derive(Drop)]
pub(crate) struct Watch {
    starts: Starts,
    /// The pattern that was tried last.
    index: usize,
    /// How many texts this try has looked for.
    turn: usize,
}

impl Model for Watch {
    ghost use Rattle.std.specs.Prelude.{◌≤◌, List, length};
    ghost use Rattle.dg_match.specs.declared.starts.Progress.{Progress};

    ghost Value = { List Progress };

    ghost view = { λ w. w.starts };

    ghost invariant = { λ w. w.turn ≤ length w.starts };
}

impl Watch {
    /// Nothing is remembered.
    pub(crate) fn new(alloc: Global) -> Watch
        ensures { result ≡ [] }
    {
        Watch {
            starts: Starts::new(alloc),
            index: 0,
            turn: 0,
        }
    }

    /// Counts the places anew where so many bytes were cut from the buffer's front.
    pub(crate) fn cut(&mut self, count: usize)
        ensures { (bytes : List ℕ) → count ≤ length bytes → AllKept bytes self.old →
            AllKept (drop count bytes) self.new }
    {
        self.starts.cut(count);
    }

    /// Whether the bytes lack what the pattern of an index needs, so that it has no match.
    pub(crate) fn lacks(
        &mut self,
        alloc: Global,
        bytes: &[u8],
        index: usize,
        needs: &Needs,
    ) -> Result<bool, AllocError>
        requires { AllKept bytes.now self.old }
        ensures none { IfOk result (λ r. IsTrue r → (text : List ℕ) →
            All (λ s. NeedsOneOf text (needles_of s)) needs.now.sets.items → regex_match text bytes.now ≡ None) }
        ensures passed { AllKept bytes.now self.new }
    {
        self.turn_to(index);
        for texts in needs.sets.iter() {
            if self.lacks_all(alloc, bytes, texts.as_slice())? {
                return Ok(true);
            }
        }
        Ok(false)
    }

    /// Goes on to the pattern of an index. One that isn't behind the last begins a new try.
    fn turn_to(&mut self, index: usize)
        ensures { self.new ≡ self.old }
    {
        if index <= self.index {
            self.turn = 0;
        }
        self.index = index;
    }

    /// Whether none of the texts stands in the bytes.
    fn lacks_all(
        &mut self,
        alloc: Global,
        bytes: &[u8],
        texts: &[Vec<u8>],
    ) -> Result<bool, AllocError>
        requires { AllKept bytes.now self.old }
        ensures nowhere { IfOk result (λ r. IsTrue r → All (λ t. IsNowhere t bytes.now) (map (λ n. n.items) texts.now)) }
        ensures passed { AllKept bytes.now self.new }
    {
        for text in texts {
            if self.finds(alloc, bytes, text.as_slice())? {
                return Ok(false);
            }
        }
        Ok(true)
    }

    /// Whether a text stands in the bytes. Only those behind the places that it is known to have
    /// passed are read.
    fn finds(&mut self, alloc: Global, bytes: &[u8], text: &[u8]) -> Result<bool, AllocError>
        requires { AllKept bytes.now self.old }
        ensures nowhere { IfOk result (λ r. r ≡ false → IsNowhere text.now bytes.now) }
        ensures passed { AllKept bytes.now self.new }
    {
        let looked = self
            .starts
            .search_for(alloc, self.turn, Kind::Text, text, bytes)?;
        self.turn = self.turn.saturating_add(1);
        Ok(looked.found.is_some())
    }
}
