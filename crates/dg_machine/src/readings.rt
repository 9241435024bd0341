//! What was read of texts, which one evaluation hands on to the next.
use dg_compiled::{Commands, Formula, Listing, WordList};
use dg_forms::Elements;
use dg_match::Programs;
use dg_scope::LONGEST_VALUE;
use dg_shelf::Shelf;
use std::alloc::{AllocError, Global};

/// How many scripts, expressions, pairs of `switch` and lists of words are kept at most, of each.
const TEXTS: usize = 1_024;
/// How many bytes the texts of each have together at most: what is kept of them takes many times their room.
const ROOM: usize = 262_144;
/// How many long lists are kept beside their texts, which have as many bytes together as a value may have.
const LISTS: usize = 256;
/// How many evaluations in a row use what was read, the one that read it among them; the next begins with nothing.
const HEIRS: u32 = 64;

/// What was read of texts lately: scripts, expressions, the pairs of `switch`, the lists of words of `expect` and long lists, and
/// the `-re` patterns that were built. It is the same in every evaluation, so what one has read serves the next. No contract says
/// what stands in it.
#[derive(Drop)]
pub struct Readings {
    /// In a block, which an evaluation takes over as it is; none where nothing was read.
    kept: Option<Box<Shelves>>,
}

/// Where an evaluation keeps what it reads of texts.
#[derive(Drop)]
pub(crate) struct Shelves {
    /// The `-re` patterns that were built.
    pub programs: Programs,
    /// The scripts, the expressions, the pairs of `switch`, the lists of words and the long lists that were read lately.
    pub scripts: Shelf<Commands>,
    pub formulas: Shelf<Formula>,
    pub pairs: Shelf<Elements>,
    pub word_lists: Shelf<WordList>,
    pub lists: Shelf<Listing>,
    /// How many evaluations had them, the one that has them now among them.
    served: u32,
}

impl Readings {
    /// Nothing was read yet.
    pub fn new() -> Readings {
        Readings { kept: None }
    }

    /// What an evaluation has read.
    pub(crate) fn of(shelves: Box<Shelves>) -> Readings {
        Readings {
            kept: Some(shelves),
        }
    }

    /// What the next evaluation begins with: these, or none once enough of them had them, so that what is not needed any more
    /// is let go of.
    pub(crate) fn for_next(self, alloc: Global) -> Result<Box<Shelves>, AllocError> {
        match self.kept {
            Some(mut kept) if kept.served < HEIRS => {
                kept.served += 1;
                Ok(kept)
            }
            _ => Ok(Box::new(alloc, Shelves::new(alloc))?),
        }
    }
}

impl Shelves {
    /// Nothing was read yet.
    fn new(alloc: Global) -> Shelves {
        Shelves {
            programs: Programs::new(alloc),
            scripts: Shelf::new(alloc, TEXTS, ROOM),
            formulas: Shelf::new(alloc, TEXTS, ROOM),
            pairs: Shelf::new(alloc, TEXTS, ROOM),
            word_lists: Shelf::new(alloc, TEXTS, ROOM),
            lists: Shelf::new(alloc, LISTS, LONGEST_VALUE),
            served: 1,
        }
    }
}
