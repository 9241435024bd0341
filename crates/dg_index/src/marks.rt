//! Marks: one for each read of a record, and how many of them are raised.
ghost use Rattle.std.specs.Prelude.{◌≡◌, ◌<◌, false, length, replicate, slice_set, IfOk};
ghost use Rattle.dg_index.specs.Marks.{is_clear};

use std::alloc::{AllocError, Global};
use std::marker::Model;

/// Marks in order, and how many are raised, so that it takes one test to know whether any is.
pub struct Marks {
    flags: Vec<bool>,
    raised: usize,
}

impl Drop for Marks {
    fn drop(self) {
        let Marks {
            flags: _,
            raised: _,
        } = self;
    }
}

impl Model for Marks {
    ghost use Rattle.std.specs.Prelude.{◌≡◌, Bool, List, count_by};

    ghost Value = { List Bool };

    ghost view = { λ m. m.flags.items };

    ghost invariant = { λ m. m.raised ≡ count_by (λ flag. flag) m.flags.items };
}

impl Marks {
    /// So many marks, none of them raised.
    pub fn new(alloc: Global, count: usize) -> Result<Marks, AllocError>
        ensures { IfOk result (λ m. m ≡ replicate count false) }
    {
        Ok(Marks {
            flags: vec![in alloc; false; count]?,
            raised: 0,
        })
    }

    /// Raises or lowers a mark.
    pub fn put(&mut self, place: usize, raise: bool)
        requires { place < length self.old }
        ensures { self.new ≡ slice_set self.old place raise }
    {
        if self.flags[place] {
            self.raised -= 1;
        }
        if raise {
            self.raised += 1;
        }
        self.flags[place] = raise;
    }

    /// Whether none is raised.
    pub fn are_clear(&self) -> bool
        ensures { result ≡ is_clear self.now }
    {
        self.raised == 0
    }
}
