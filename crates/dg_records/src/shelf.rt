//! Records that are kept.
ghost use Rattle.std.specs.Prelude.{◌≡◌, List, [], OnOk, OnErr, IfOk, IfErr};
ghost use Rattle.std.specs.Option.{option_copied};
ghost use Rattle.dg_records.specs.Shelf.{kept, with_record, Exchanges};
ghost use Rattle.dg_records.specs.Truth.{RecordView};

use crate::record::Record;
use dg_world::TestId;
use indexmap::IndexMap;
use std::alloc::Global;
use std::marker::Model;
use std::mem;

/// One record for each test, the newest. A contract sees the list of them, in the order in which
/// the tests first had one.
pub struct Shelf {
    records: IndexMap<TestId, Record>,
}

impl Drop for Shelf {
    fn drop(self) {
        let Shelf { records: _ } = self;
    }
}

impl Model for Shelf {
    ghost use Rattle.std.specs.Prelude.{List, IsTrue, map};
    ghost use Rattle.std.specs.List.{list_all};
    ghost use Rattle.dg_records.specs.Truth.{RecordView};
    ghost use Rattle.dg_world.specs.Test.{same_test};

    ghost Value = { List RecordView };

    ghost view = { λ s. map (λ e. e.1) s.records.entries };

    ghost invariant = { λ s. IsTrue (list_all (λ e. same_test e.0 e.1.test) s.records.entries) };
}

impl Shelf {
    /// No records.
    pub fn new(alloc: Global) -> Shelf
        ensures { result ≡ [] }
    {
        Shelf {
            records: IndexMap::new(alloc),
        }
    }

    /// Keeps a record in the place of the one that its test had, or gives it back and changes
    /// nothing where there is no room for it.
    pub fn keep(&mut self, alloc: Global, newest: Record) -> Result<(), Record>
        ensures ok { OnOk result (self.new ≡ with_record self.old newest) }
        ensures err { OnErr result (self.new ≡ self.old) }
        ensures back { IfErr result (λ r. r ≡ newest) }
    {
        match self.exchange(alloc, newest) {
            Ok(_) => Ok(()),
            Err(newest) => Err(newest),
        }
    }

    /// Keeps a record as `keep` does, and gives the one that its test had.
    pub fn exchange(&mut self, alloc: Global, newest: Record) -> Result<Option<Record>, Record>
        ensures ok { IfOk result (λ previous. Exchanges self.old newest previous self.new) }
        ensures err { OnErr result (self.new ≡ self.old) }
        ensures back { IfErr result (λ r. r ≡ newest) }
    {
        let Ok(test) = newest.test().copy(alloc) else {
            return Err(newest);
        };
        let refused = match self.records.insert(test, newest) {
            Ok(previous) => return Ok(previous),
            Err(refused) => refused,
        };
        let (_, back) = refused.value;
        Err(back)
    }

    /// Undoes an exchange of a test's record: the shelf is again what it was before, and the newest record comes back. It
    /// takes no memory.
    pub fn put_back(&mut self, test: &TestId, previous: Option<Record>) -> Record
        requires { (before : List RecordView) × (newest : RecordView) × (newest.test ≡ test.now) × Exchanges before newest
            previous self.old }
        ensures { (before : List RecordView) (newest : RecordView) → newest.test ≡ test.now → Exchanges before newest
            previous self.old → (self.new ≡ before) × (result ≡ newest) }
    {
        match previous {
            Some(previous) => match self.records.get_mut(test) {
                Some(place) => mem::replace(place, previous),
                None => unreachable!(),
            },
            None => match self.records.shift_remove(test) {
                Some(newest) => newest,
                None => unreachable!(),
            },
        }
    }

    /// The record of a test.
    pub fn get(&self, test: &TestId) -> Option<&Record>
        ensures { option_copied result ≡ kept self.now test.now }
    {
        self.records.get(test)
    }
}
