//! Values by long names, which are kept as bytes.
ghost use Rattle.std.specs.Prelude.{◌≡◌, IsFalse, IsTrue, OnOk, OnErr, Some};
ghost use Rattle.std.specs.Option.{option_copied};
ghost use Rattle.std.specs.FinMap as map;

use std::alloc::{AllocError, Global};
use std::collections::BTreeMap;
use std::marker::Model;
use std::mem;

/// Values by names. A contract sees the finite map from names, in byte order, to values.
pub(crate) struct LongNames<V> {
    entries: BTreeMap<Vec<u8>, V>,
}

impl<V: Drop> Drop for LongNames<V> {
    fn drop(self) {
        let LongNames { entries: _ } = self;
    }
}

impl<V> Model for LongNames<V> {
    ghost use Rattle.std.specs.Ordering.{nat_cmp};
    ghost use Rattle.std.specs.Cmp.Lexicographic.{slice_cmp};
    ghost use Rattle.std.specs.FinMap as map;
    ghost use Rattle.std.specs.Coded.{coded_ℕ, coded_list};

    ghost Value = { map.FinMap (slice_cmp nat_cmp) V };

    ghost coded = { map.code (coded_list coded_ℕ) V.code };

    ghost use Rattle.dg_scope.specs.Table.{by_name, bytes_of};

    ghost view = { λ t. map.from_entries (by_name bytes_of t.entries.entries) };
}

impl<V: Drop> LongNames<V> {
    /// No names.
    pub(crate) fn new(alloc: Global) -> LongNames<V>
        ensures { result ≡ map.empty }
    {
        LongNames {
            entries: BTreeMap::new(alloc),
        }
    }

    /// The value of a name.
    pub(crate) fn get(&self, name: &[u8]) -> Option<&V>
        ensures { option_copied result ≡ map.get self.now name.now }
    {
        self.entries.get(name)
    }

    /// Whether a name has a value.
    pub(crate) fn has(&self, name: &[u8]) -> bool
        ensures { result ≡ map.contains_key self.now name.now }
    {
        self.entries.contains_key(name)
    }

    /// Exchanges the value of a name for another, if it has one.
    pub(crate) fn exchange(&mut self, name: &[u8], value: &mut V) -> bool
        ensures found { result ≡ map.contains_key self.old name.now }
        ensures exchanged { IsTrue result → (map.get self.old name.now ≡ Some value.new) × (self.new ≡ map.insert self.old name.now value.old) }
        ensures absent { IsFalse result → (self.new ≡ self.old) × (value.new ≡ value.old) }
    {
        match self.entries.get_mut(name) {
            Some(held) => {
                mem::swap(held, value);
                true
            }
            None => false,
        }
    }

    /// Gives a name a value, or changes nothing.
    pub(crate) fn insert(
        &mut self,
        alloc: Global,
        name: &[u8],
        mut value: V,
    ) -> Result<(), AllocError>
        ensures ok { OnOk result (self.new ≡ map.insert self.old name.now value) }
        ensures err { OnErr result (self.new ≡ self.old) }
    {
        if self.exchange(name, &mut value) {
            return Ok(());
        }
        let name = Vec::from_slice(alloc, name)?;
        self.entries.insert(name, value)?;
        Ok(())
    }

    /// Takes the value of a name away, and tells whether there was one.
    pub(crate) fn remove(&mut self, name: &[u8]) -> bool
        ensures found { result ≡ map.contains_key self.old name.now }
        ensures gone { self.new ≡ map.remove self.old name.now }
    {
        self.entries.remove(name).is_some()
    }
}
