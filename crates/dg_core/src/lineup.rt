//! The lineup: the selected tests in order, where the record of each stands, and which of them may be pending.
ghost use Rattle.std.specs.Prelude.{◌≡◌, IfOk, IfSome, Some, map, option_copied};
ghost use Rattle.dg_core.specs.Lineup.{place_in, IsClosedOf, IsCurrent, IsOpenTo, LeadBack, Opens, OpensAt};
ghost use Rattle.dg_core.specs.declared.openings.Openings.{Openings};
ghost use Rattle.dg_index.specs.Kept.{place_of};

use crate::openings::Openings;
use dg_bytes::Seq;
use dg_index::Kept;
use dg_world::{Edit, TestId};
use std::alloc::{AllocError, Global};

/// The selected tests in order, and for each the place of its record, where it had one when the lineup was made. As long as
/// the same tests are selected they need not be listed again, nor looked for by their names. Any test may be pending, or only
/// those at the open positions.
pub struct Lineup {
    tests: Seq<TestId>,
    places: Seq<Option<usize>>,
    openings: Option<Openings>,
}

impl Drop for Lineup {
    fn drop(self) {
        let Lineup {
            tests: _,
            places: _,
            openings: _,
        } = self;
    }
}

impl Lineup {
    /// The lineup of a world with its kept records, of which any test may be pending.
    pub fn of(alloc: Global, kept: &Kept) -> Result<Lineup, AllocError>
        ensures { IfOk result (IsCurrent kept.now.world kept.now.shelf) }
    {
        let tests = kept.world().selected(alloc)?;
        let places = places_of(alloc, kept, tests.as_slice())?;
        Ok(Lineup {
            tests,
            places,
            openings: None,
        })
    }

    /// The tests.
    pub fn tests(&self) -> &[TestId]
        ensures { result.now ≡ self.now.tests }
    {
        self.tests.as_slice()
    }

    /// The place of the record of the test that stands here, where it is known.
    pub fn place(&self, at: usize) -> Option<usize>
        ensures { result ≡ place_in self.now at }
    {
        match self.places.as_slice().get(at) {
            Some(place) => *place,
            None => None,
        }
    }

    /// The positions at which a test may be pending, unless any may be.
    pub fn openings(&self) -> Option<&Openings>
        ensures { option_copied result ≡ self.now.openings }
    {
        self.openings.as_ref()
    }

    /// The lineup with no position open, where the place of each record is known, among so many, and memory isn't refused.
    pub fn closed(self, alloc: Global, records: usize) -> Option<Lineup>
        requires { IfSome self.openings (LeadBack self.places) }
        ensures { IfSome result (IsClosedOf self) }
    {
        let Lineup {
            tests,
            places,
            openings,
        } = self;
        let openings = match openings {
            Some(mut openings) => {
                openings.close();
                openings
            }
            None => Openings::none(alloc, places.as_slice(), records)?,
        };
        Some(Lineup {
            tests,
            places,
            openings: Some(openings),
        })
    }

    /// The lineup with the position open of each test whose record stands at one of these places. Where memory is refused
    /// any test may be pending.
    fn opened(self, touched: &[usize]) -> Lineup
        ensures { Opens touched.now self result }
    {
        let Lineup {
            tests,
            places,
            openings,
        } = self;
        Lineup {
            tests,
            places,
            openings: opened(openings, touched),
        }
    }
}

/// Openings, with those of these places.
fn opened(openings: Option<Openings>, touched: &[usize]) -> Option<Openings>
    ensures { IfSome result (λ new. (old : Openings) × (openings ≡ Some old) × OpensAt touched.now old new) }
{
    let mut openings = openings?;
    match openings.open_all(touched) {
        Ok(()) => Some(openings),
        Err(_) => None,
    }
}

/// A lineup that is open at each test whose record may read what an edit touches, with the edit back.
pub fn opened_to(lineup: Option<Lineup>, kept: &Kept, edit: Edit) -> (Option<Lineup>, Edit)
    requires { IfSome lineup (IsCurrent kept.now.world kept.now.shelf) }
    ensures lineup { IfSome result.0 (IsOpenTo edit kept.now.world kept.now.shelf) }
    ensures back { result.1 ≡ edit }
{
    let (places, edit) = kept.places_touched(edit);
    match lineup {
        Some(lineup) => (Some(lineup.opened(places)), edit),
        None => (None, edit),
    }
}

/// The places of the records of some tests.
fn places_of(alloc: Global, kept: &Kept, tests: &[TestId]) -> Result<Seq<Option<usize>>, AllocError>
    ensures { IfOk result (λ l. l ≡ map (place_of kept.now.shelf) tests.now) }
{
    let mut places = Vec::new(alloc);
    for test in tests {
        places.push(kept.place_of(test))?;
    }
    Ok(Seq::from_vec(places))
}
