//! The book of `-re` patterns.
ghost use Rattle.std.specs.Prelude.{◌≡◌, ◌++◌, ◌∷◌, [], IfOk, OnErr, IsNone, IfSome, Ok, Some};
ghost use Rattle.dg_match.specs.Book.{Fits, AllFit, reading_of};

use crate::built::Built;
use crate::fault::PatternFault;
use crate::reading::Reading;
use dg_bytes::Bytes;
use indexmap::IndexMap;
use std::alloc::{AllocError, Global};
use std::marker::Model;

/// What was answered for the text of each `-re` pattern that was asked. A first answer stays for
/// good. A contract sees the texts with their answers, in the order of the first asks.
#[derive(Drop)]
pub struct PatternBook {
    map: IndexMap<Bytes, Reading>,
}

impl Model for PatternBook {
    ghost use Rattle.std.specs.Prelude.{ℕ, List};
    ghost use Rattle.dg_match.specs.declared.reading.Reading.{Reading};

    ghost Value = { List (List ℕ × Reading) };

    ghost use Rattle.dg_match.specs.Book.{AllFit};

    ghost view = { λ b. b.map.entries };

    ghost invariant = { λ b. AllFit b.map.entries };
}

/// Reads a pattern's text.
fn read(alloc: Global, text: &[u8]) -> Result<Reading, AllocError>
    ensures { IfOk result (λ r. Fits text.now r) }
{
    match Built::new(alloc, text) {
        Ok(_) => Ok(Reading::Read),
        Err(PatternFault::Syntax) => Ok(Reading::Syntax),
        Err(PatternFault::TooLarge) => Ok(Reading::TooLarge),
        Err(PatternFault::Memory) => Err(AllocError),
    }
}

impl PatternBook {
    /// No answers.
    pub fn new(alloc: Global) -> PatternBook
        ensures { result ≡ [] }
    {
        PatternBook {
            map: IndexMap::new(alloc),
        }
    }

    /// The answer for a text, if it was asked for. It takes no memory.
    pub fn get(&self, text: &Bytes) -> Option<Reading>
        ensures value { result ≡ reading_of self.now text.now }
        ensures fits { IfSome result (λ r. Fits text.now r) }
    {
        self.map.get(text).copied()
    }

    /// The answer for a text: the first one, which the book keeps, or where the text is new how it is
    /// read. Where a growth is refused nothing is changed; a known text takes no memory.
    pub fn ask(&mut self, alloc: Global, text: &Bytes) -> Result<Reading, AllocError>
        ensures known { IfSome (reading_of self.old text.now) (λ r. (result ≡ Ok r) × (self.new ≡ self.old)) }
        ensures first { IsNone (reading_of self.old text.now) →
            IfOk result (λ r. self.new ≡ self.old ++ (text.now, r) ∷ []) }
        ensures fits { IfOk result (λ r. Fits text.now r) }
        ensures answer { IfOk result (λ r. reading_of self.new text.now ≡ Some r) }
        ensures err { OnErr result (self.new ≡ self.old) }
    {
        if let Some(reading) = self.get(text) {
            return Ok(reading);
        }
        let reading = read(alloc, text.as_slice())?;
        let key = Bytes::from_slice(alloc, text.as_slice())?;
        self.map.insert(key, reading)?;
        Ok(reading)
    }
}
