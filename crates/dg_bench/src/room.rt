//! Which bench it is.
use std::marker::Brand;

/// The names of a bench's cells, for contracts alone: they tell the passes and receipts of one bench from those of another.
/// [`Brand`] stands for it where a bench is opened.
pub trait Room {
    ghost use Rattle.std.specs.Prelude.{ℕ, List};

    ghost names: { List ℕ };
}

impl Room for Brand {
    ghost use Rattle.std.specs.Prelude.{[]};

    ghost names = { [] };
}
