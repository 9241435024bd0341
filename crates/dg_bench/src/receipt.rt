//! Which place a call got.
ghost use Rattle.std.specs.Prelude.{◌≡◌, Some};
ghost use Rattle.dg_bench.specs.Seen.{told_of, IsTold, front};

use crate::note::PlaceNote;
use crate::room::Room;
use std::marker::{Model, PhantomData};

/// The place of a call, or how many calls there were at a look. Contracts see it as a `Told`: the number, and the call that
/// stands there.
pub struct Receipt<B: Room> {
    pub(crate) number: usize,
    pub(crate) note: Option<PlaceNote>,
    of: PhantomData<B>,
}

/// Written by hand, and so one call for whoever lets it go.
impl<B: Room> Drop for Receipt<B> {
    fn drop(self) {
        let Receipt {
            number: _,
            note: _,
            of: _,
        } = self;
    }
}

impl<B: Room> Model for Receipt<B> {
    ghost use Rattle.dg_bench.specs.Seen.{Told, told_of, IsTold};

    ghost Value = { Told };

    ghost view = { λ r. told_of r.number r.note };

    ghost invariant = { λ r. IsTold B.names r.number r.note };
}

impl<B: Room> Receipt<B> {
    /// Of a call at this place, which a note knows.
    pub(crate) fn of_note(number: usize, note: PlaceNote) -> Receipt<B>
        requires { IsTold B.names number (Some note) }
        ensures { result ≡ told_of number (Some note) }
    {
        Receipt {
            number,
            note: Some(note),
            of: PhantomData,
        }
    }

    /// Of a look at this many calls.
    pub(crate) fn of_front(number: usize) -> Receipt<B>
        ensures { result ≡ front number }
    {
        Receipt {
            number,
            note: None,
            of: PhantomData,
        }
    }

    /// The place of the call, counted from 0, or how many calls there were.
    pub fn number(&self) -> usize
        ensures { result ≡ self.now.number }
    {
        self.number
    }
}
