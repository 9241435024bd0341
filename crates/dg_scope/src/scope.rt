//! One scope.
ghost use Rattle.std.specs.Prelude.{◌≡◌, ◌||◌, IsFalse, IsTrue, Some, false, is_some};
ghost use Rattle.dg_scope.specs.declared.scope.Slot.TheVariants.{Held};
ghost use Rattle.std.specs.Option.{option_copied};
ghost use Rattle.std.specs.FinMap as map;
ghost use Rattle.dg_scope.specs.Names.{base_of};
ghost use Rattle.dg_scope.specs.Scopes.{is_link, means_global_in, held};

use crate::name::{base_of, is_closed, is_qualified};
use crate::table::Table;
use dg_bytes::Bytes;
use std::alloc::Global;
use std::mem;

/// The content of a name in a scope: a text, or a link to the global of that name.
#[derive(Drop)]
pub enum Slot {
    Held(Bytes),
    Link,
}

/// A scope: the first, whose variables are the globals, or one with names of its own.
#[derive(Drop)]
pub enum Scope {
    Outermost,
    Local(Table<Slot>),
}

impl Scope {
    /// Whether a name means the global in this scope.
    pub(crate) fn means_global(&self, name: &[u8]) -> bool
        ensures { result ≡ means_global_in self.now name.now }
    {
        match self {
            Scope::Outermost => true,
            Scope::Local(names) => is_qualified(name) || is_linked_by_base(names, name),
        }
    }
}

/// Whether a name or its base is a link. A name that doesn't end as an element's does is its own base, and is looked for once.
#[tactic(auto, using(crate::proofs::Links::once))]
fn is_linked_by_base(names: &Table<Slot>, name: &[u8]) -> bool
    ensures { result ≡ (is_link (map.get names.now name.now) || is_link (map.get names.now (base_of name.now))) }
{
    if is_closed(name) {
        return is_linked(names, name) || is_linked(names, base_of(name));
    }
    is_linked(names, name)
}

/// Whether a name is itself a link.
fn is_linked(names: &Table<Slot>, name: &[u8]) -> bool
    ensures { result ≡ is_link (map.get names.now name.now) }
{
    matches!(names.get(name), Some(Slot::Link))
}

/// The value that a name has in a scope of its own.
pub(crate) fn own_value<'a>(names: &'a Table<Slot>, name: &[u8]) -> Option<&'a Bytes>
    ensures { option_copied result ≡ held (map.get names.now name.now) }
{
    match names.get(name) {
        Some(Slot::Held(text)) => Some(text),
        _ => None,
    }
}

/// Exchanges the value that a name has in a scope of its own for another, if it has one. A link is put back.
#[tactic(auto, using(crate::proofs::Exchanges::map_twice, crate::proofs::Exchanges::map_same, crate::proofs::Exchanges::map_has))]
pub(crate) fn exchange_own(
    alloc: Global,
    names: &mut Table<Slot>,
    name: &[u8],
    value: &mut Bytes,
) -> bool
    ensures found { result ≡ is_some (held (map.get names.old name.now)) }
    ensures exchanged { IsTrue result → (held (map.get names.old name.now) ≡ Some value.new) × (names.new ≡ map.insert names.old name.now (Held value.old)) }
    ensures absent { IsFalse result → (names.new ≡ names.old) × (value.new ≡ value.old) }
{
    let mut slot = Slot::Held(mem::replace(value, Bytes::new(alloc)));
    let mut found = names.exchange(name, &mut slot);
    if let Slot::Link = &slot {
        names.exchange(name, &mut slot);
        found = false;
    }
    if let Slot::Held(text) = slot {
        *value = text;
    }
    found
}
