//! What a caller knows of the history.
ghost use Rattle.std.specs.Prelude.{◌≡◌, ◌≤◌, true, false, vec_len};
ghost use mathlib.Core.List.{IsPrefix};
ghost use Rattle.dg_bench.specs.Seen.{seen_of, IsSeen, KnowsAll};

use crate::call::Call;
use crate::note::PlaceNote;
use crate::notes::compare_at;
use crate::room::Room;
use std::marker::{Model, PhantomData};

/// A beginning of the history that was seen. Contracts see it as a `Seen`: the calls, how many they are, and whether it is
/// a pass of this bench.
pub struct Pass<B: Room> {
    count: usize,
    ours: bool,
    note: Option<PlaceNote>,
    of: PhantomData<B>,
}

/// Written by hand, and so one call for whoever lets it go.
impl<B: Room> Drop for Pass<B> {
    fn drop(self) {
        let Pass {
            count: _,
            ours: _,
            note: _,
            of: _,
        } = self;
    }
}

impl<B: Room> Model for Pass<B> {
    ghost use Rattle.dg_bench.specs.Seen.{Seen, seen_of, IsSeen};

    ghost Value = { Seen };

    ghost view = { λ p. seen_of p.ours p.count p.note };

    ghost invariant = { λ p. IsSeen B.names p.ours p.count p.note };
}

impl<B: Room> Pass<B> {
    /// A pass of this bench that has seen so many calls, of which a note knows the last.
    pub(crate) fn of_note(count: usize, note: Option<PlaceNote>) -> Pass<B>
        requires { IsSeen B.names true count note }
        ensures { result ≡ seen_of true count note }
    {
        Pass {
            count,
            ours: true,
            note,
            of: PhantomData,
        }
    }

    /// How many calls it has seen.
    pub fn seen(&self) -> usize
        ensures { result ≡ self.now.count }
    {
        self.count
    }

    /// Another pass that has seen the same.
    pub fn twin(&mut self) -> Pass<B>
        ensures same { self.new ≡ self.old }
        ensures twin { result ≡ self.old }
    {
        let note = again(&mut self.note);
        Pass {
            count: self.count,
            ours: self.ours,
            note,
            of: PhantomData,
        }
    }

    /// Holds what the pass has seen against the calls.
    #[tactic(auto, using(crate::proofs::Places::agreed))]
    pub(crate) fn agree(self, notes: &mut Vec<PlaceNote>, calls: &Vec<Call>)
        requires all { KnowsAll B.names notes.old.items calls.now.items }
        requires within { self.count ≤ vec_len calls.now }
        ensures same { notes.new.items ≡ notes.old.items }
        ensures begins { self.ours ≡ true → IsPrefix self.calls calls.now.items }
    {
        let Pass {
            count,
            ours,
            note,
            of: _,
        } = self;
        if !ours {
            return;
        }
        if let Some(note) = note {
            compare_at(notes, count - 1, note);
        }
    }

    /// A pass for another bench, of which it has seen nothing, with the same number of calls.
    pub fn for_other<C: Room>(&self) -> Pass<C>
        ensures { (result.count ≡ self.now.count) × (result.ours ≡ false) }
    {
        Pass {
            count: self.count,
            ours: false,
            note: None,
            of: PhantomData,
        }
    }
}

/// Another note that knows the same.
fn again(note: &mut Option<PlaceNote>) -> Option<PlaceNote>
    ensures { (note.new ≡ note.old) × (result ≡ note.old) }
{
    match note {
        Some(note) => Some(note.again()),
        None => None,
    }
}
