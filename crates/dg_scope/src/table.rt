//! Values by name.
ghost use Rattle.std.specs.Prelude.{◌≡◌, IsFalse, IsTrue, OnOk, OnErr, Some};
ghost use Rattle.std.specs.Option.{option_copied};
ghost use Rattle.std.specs.FinMap as map;

use crate::long_names::LongNames;
use crate::short_names::{ShortNames, is_short};
use std::alloc::{AllocError, Global};
use std::marker::Model;

/// Values by name. A contract sees the finite map from names, in byte order, to values. Most names are short, and numbers are
/// compared faster than bytes.
pub struct Table<V> {
    short: ShortNames<V>,
    long: LongNames<V>,
}

impl<V: Drop> Drop for Table<V> {
    fn drop(self) {
        let Table { short: _, long: _ } = self;
    }
}

impl<V> Model for Table<V> {
    ghost use Rattle.std.specs.Ordering.{nat_cmp};
    ghost use Rattle.std.specs.Cmp.Lexicographic.{slice_cmp};
    ghost use Rattle.std.specs.FinMap as map;
    ghost use Rattle.std.specs.Coded.{coded_ℕ, coded_list};

    ghost Value = { map.FinMap (slice_cmp nat_cmp) V };

    ghost coded = { map.code (coded_list coded_ℕ) V.code };

    ghost use Rattle.dg_scope.specs.Table.{joined};

    ghost view = { λ t. joined t.short t.long };
}

impl<V: Drop> Table<V> {
    /// No names.
    pub fn new(alloc: Global) -> Table<V>
        ensures { result ≡ map.empty }
    {
        Table {
            short: ShortNames::new(alloc),
            long: LongNames::new(alloc),
        }
    }

    /// The value of a name.
    pub fn get(&self, name: &[u8]) -> Option<&V>
        ensures { option_copied result ≡ map.get self.now name.now }
    {
        if is_short(name) {
            self.short.get(name)
        } else {
            self.long.get(name)
        }
    }

    /// Whether a name has a value.
    pub fn has(&self, name: &[u8]) -> bool
        ensures { result ≡ map.contains_key self.now name.now }
    {
        if is_short(name) {
            self.short.has(name)
        } else {
            self.long.has(name)
        }
    }

    /// Exchanges the value of a name for another, if it has one.
    pub fn exchange(&mut self, name: &[u8], value: &mut V) -> bool
        ensures found { result ≡ map.contains_key self.old name.now }
        ensures exchanged { IsTrue result → (map.get self.old name.now ≡ Some value.new) × (self.new ≡ map.insert self.old name.now value.old) }
        ensures absent { IsFalse result → (self.new ≡ self.old) × (value.new ≡ value.old) }
    {
        if is_short(name) {
            return self.short.exchange(name, value);
        }
        self.long.exchange(name, value)
    }

    /// Gives a name a value, or changes nothing.
    pub fn insert(&mut self, alloc: Global, name: &[u8], value: V) -> Result<(), AllocError>
        ensures ok { OnOk result (self.new ≡ map.insert self.old name.now value) }
        ensures err { OnErr result (self.new ≡ self.old) }
    {
        if is_short(name) {
            return self.short.insert(name, value);
        }
        self.long.insert(alloc, name, value)
    }

    /// Takes the value of a name away, and tells whether there was one.
    pub fn remove(&mut self, name: &[u8]) -> bool
        ensures found { result ≡ map.contains_key self.old name.now }
        ensures gone { self.new ≡ map.remove self.old name.now }
    {
        if is_short(name) {
            return self.short.remove(name);
        }
        self.long.remove(name)
    }
}
