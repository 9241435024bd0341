//! The openings of a lineup: the positions at which a test may be pending.
ghost use Rattle.std.specs.Prelude.{◌≡◌, [], ◌∷◌, IfSome, OnOk};
ghost use Rattle.dg_core.specs.Lineup.{AllLeadBack, LeadBack, OpensAt};

use dg_bytes::Seq;
use std::alloc::{AllocError, Global};
use std::collections::BTreeSet;

/// The positions of a lineup outside of which every test is held, and for each place of a record the position of its test.
pub struct Openings {
    positions: Seq<Option<usize>>,
    opened: BTreeSet<usize>,
}

impl Drop for Openings {
    fn drop(self) {
        let Openings {
            positions: _,
            opened: _,
        } = self;
    }
}

impl Openings {
    /// No position is open, where each test has a record, at one of so many places: these, in order. There are no openings
    /// where a test has none, or where memory is refused.
    pub fn none(alloc: Global, places: &[Option<usize>], records: usize) -> Option<Openings>
        ensures lead { IfSome result (LeadBack places.now) }
        ensures none_open { IfSome result (λ o. o.opened.keys ≡ []) }
    {
        let positions = positions_of(alloc, places, records)?;
        Some(Openings {
            positions: Seq::from_vec(positions),
            opened: BTreeSet::new(alloc),
        })
    }

    /// The open positions, in ascending order.
    pub fn opened(&self) -> &BTreeSet<usize>
        ensures { result.now ≡ self.now.opened }
    {
        &self.opened
    }

    /// Closes all positions.
    pub fn close(&mut self)
        ensures positions { self.new.positions ≡ self.old.positions }
        ensures none_open { self.new.opened.keys ≡ [] }
    {
        self.opened.clear();
    }

    /// Opens the position of the test whose record stands at a place.
    fn open_at(&mut self, place: usize) -> Result<(), AllocError>
        ensures { OnOk result (OpensAt (place ∷ []) self.old self.new) }
    {
        if let Some(Some(at)) = self.positions.as_slice().get(place) {
            self.opened.insert(*at)?;
        }
        Ok(())
    }

    /// Opens the position of each test whose record stands at one of these places.
    pub fn open_all(&mut self, places: &[usize]) -> Result<(), AllocError>
        ensures { OnOk result (OpensAt places.now self.old self.new) }
    {
        for place in places {
            self.open_at(*place)?;
        }
        Ok(())
    }
}

/// For each place of a record the position of its test, where each test has a place of its own among so many.
fn positions_of(
    alloc: Global,
    places: &[Option<usize>],
    records: usize,
) -> Option<Vec<Option<usize>>>
    ensures { IfSome result (λ positions. AllLeadBack places.now positions.items) }
{
    let mut positions = vec![in alloc; None; records].ok()?;
    for (at, place) in places.iter().enumerate() {
        let place = (*place)?;
        let Some(None) = positions.as_slice().get(place) else {
            return None;
        };
        positions[place] = Some(at);
    }
    Some(positions)
}
