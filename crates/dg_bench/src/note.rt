//! What is known of one place of the history.
ghost use Rattle.std.specs.Prelude.{ℕ, ◌≡◌, List, IfSome};
ghost use Rattle.once_cell.specs.Once.{Agrees};
ghost use Rattle.dg_bench.specs.declared.place.Place.{Place as Held};
ghost use Rattle.dg_bench.specs.Cells.{Sees};

use crate::cells::Block;
use crate::place::Place;
use once_cell::race::Note;

/// A note of a place, and one of the block that its cell stands in. It takes no bytes.
pub struct PlaceNote {
    pub(crate) block: Note<Block>,
    pub(crate) place: Note<Place>,
}

impl Drop for PlaceNote {
    fn drop(self) {
        let PlaceNote { block: _, place: _ } = self;
    }
}

impl PlaceNote {
    /// Another note that knows the same.
    pub(crate) fn again(&mut self) -> PlaceNote
        ensures { (self.new ≡ self.old) × (result ≡ self.old) }
    {
        PlaceNote {
            block: self.block.again(),
            place: self.place.again(),
        }
    }

    /// Two notes of a place know the same of it.
    pub(crate) fn compare(&mut self, other: PlaceNote)
        requires { (names : List ℕ) × (k : ℕ) × (p : Held) × (q : Held) × Sees names k self.old p × Sees names k other q }
        ensures same { self.new ≡ self.old }
        ensures agrees { IfSome other.place.known (Agrees self.old.place.known) }
    {
        let PlaceNote { block, place } = other;
        self.block.compare(block);
        self.place.compare(place);
    }
}
