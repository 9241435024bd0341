//! Values by names of at most seven bytes, which are kept as one number each.
ghost use Rattle.std.specs.Prelude.{◌≡◌, IsFalse, IsTrue, OnOk, OnErr, Some};
ghost use Rattle.std.specs.Option.{option_copied};
ghost use Rattle.std.specs.FinMap as map;
ghost use Rattle.dg_scope.specs.Table.{is_short, name_of};

use std::alloc::{AllocError, Global};
use std::collections::BTreeMap;
use std::marker::Model;
use std::mem;

/// The most bytes that a short name may have: the numbers of such names fit in 8 bytes.
pub(crate) const LONGEST_SHORT: usize = 7;

/// How many bytes there are.
const BYTES: u64 = 256;

/// Values by short names. A contract sees the finite map from names, in byte order, to values.
pub(crate) struct ShortNames<V> {
    entries: BTreeMap<u64, V>,
}

impl<V: Drop> Drop for ShortNames<V> {
    fn drop(self) {
        let ShortNames { entries: _ } = self;
    }
}

impl<V> Model for ShortNames<V> {
    ghost use Rattle.std.specs.Ordering.{nat_cmp};
    ghost use Rattle.std.specs.Cmp.Lexicographic.{slice_cmp};
    ghost use Rattle.std.specs.FinMap as map;
    ghost use Rattle.std.specs.Coded.{coded_ℕ, coded_list};

    ghost Value = { map.FinMap (slice_cmp nat_cmp) V };

    ghost coded = { map.code (coded_list coded_ℕ) V.code };

    ghost use Rattle.dg_scope.specs.Table.{by_name, name_of};

    ghost view = { λ t. map.from_entries (by_name name_of t.entries.entries) };
}

impl<V: Drop> ShortNames<V> {
    /// No names.
    pub(crate) fn new(alloc: Global) -> ShortNames<V>
        ensures { result ≡ map.empty }
    {
        ShortNames {
            entries: BTreeMap::new(alloc),
        }
    }

    /// The value of a short name.
    pub(crate) fn get(&self, name: &[u8]) -> Option<&V>
        requires { IsTrue (is_short name.now) }
        ensures { option_copied result ≡ map.get self.now name.now }
    {
        self.entries.get(&number_of(name))
    }

    /// Whether a short name has a value.
    pub(crate) fn has(&self, name: &[u8]) -> bool
        requires { IsTrue (is_short name.now) }
        ensures { result ≡ map.contains_key self.now name.now }
    {
        self.entries.contains_key(&number_of(name))
    }

    /// Exchanges the value of a short name for another, if it has one.
    pub(crate) fn exchange(&mut self, name: &[u8], value: &mut V) -> bool
        requires { IsTrue (is_short name.now) }
        ensures found { result ≡ map.contains_key self.old name.now }
        ensures exchanged { IsTrue result → (map.get self.old name.now ≡ Some value.new) × (self.new ≡ map.insert self.old name.now value.old) }
        ensures absent { IsFalse result → (self.new ≡ self.old) × (value.new ≡ value.old) }
    {
        match self.entries.get_mut(&number_of(name)) {
            Some(held) => {
                mem::swap(held, value);
                true
            }
            None => false,
        }
    }

    /// Gives a short name a value, or changes nothing.
    pub(crate) fn insert(&mut self, name: &[u8], value: V) -> Result<(), AllocError>
        requires { IsTrue (is_short name.now) }
        ensures ok { OnOk result (self.new ≡ map.insert self.old name.now value) }
        ensures err { OnErr result (self.new ≡ self.old) }
    {
        self.entries.insert(number_of(name), value)?;
        Ok(())
    }

    /// Takes the value of a short name away, and tells whether there was one.
    pub(crate) fn remove(&mut self, name: &[u8]) -> bool
        requires { IsTrue (is_short name.now) }
        ensures found { result ≡ map.contains_key self.old name.now }
        ensures gone { self.new ≡ map.remove self.old name.now }
    {
        self.entries.remove(&number_of(name)).is_some()
    }
}

/// The number of a short name.
fn number_of(name: &[u8]) -> u64
    requires { IsTrue (is_short name.now) }
    ensures { name_of result ≡ name.now }
{
    let mut number = 0;
    for byte in name {
        number = number * BYTES + u64::from(*byte) + 1;
    }
    number
}

/// Whether a name is short.
pub(crate) fn is_short(name: &[u8]) -> bool
    ensures { result ≡ is_short name.now }
{
    name.len() <= LONGEST_SHORT
}
