//! The variables of an evaluation.
ghost use Rattle.std.specs.Prelude.{◌≡◌, ◌∷◌, ◌++◌, [], ◌⊎◌, ℕ, List, IsFalse, Ok, Err, ◌<◌, ◌≤◌, ◌↔◌, IsTrue, is_some, Some, None, false, IsSome, IfOk, IfSome, IfErr, OnOk, OnErr, length};
ghost use Rattle.std.specs.Option.{option_copied};
ghost use Rattle.std.specs.FinMap as map;
ghost use Rattle.dg_lists.specs.Appending.{Refuses};
ghost use Rattle.dg_lists.specs.Canonical.{text_of_list};
ghost use Rattle.dg_lists.specs.Elements.{elements_of};
ghost use Rattle.dg_scope.specs.Scopes.{LongerList, or_none, value_limit, no_variables, means_global, global_value, value_of, with_global, with_value, without_value, with_link, with_scope, with_outermost, without_scope};

use crate::fault::ScopeFault;
use crate::name::{global_name, is_plain};
use crate::scope::{Scope, Slot, exchange_own, own_value};
use crate::table::Table;
use dg_bytes::Bytes;
use dg_lists::{ListFault, append_elements};
use std::alloc::{AllocError, Global};
use std::marker::Model;

/// The most bytes that a value may have.
pub const LONGEST_VALUE: usize = 1_048_576;

/// Variables by name, in a first scope and in those pushed above it. A contract sees the map of
/// the first scope, the globals, and the list of scopes from the last one pushed down to the first.
pub struct Scopes {
    globals: Table<Bytes>,
    current: Scope,
    below: Vec<Scope>,
}

impl Drop for Scopes {
    fn drop(self) {
        let Scopes {
            globals: _,
            current: _,
            below: _,
        } = self;
    }
}

impl Model for Scopes {
    ghost use Rattle.std.specs.Prelude.{◌∷◌, reverse};
    ghost use Rattle.dg_scope.specs.Scopes.{Variables};

    ghost Value = { Variables };

    ghost use Rattle.std.specs.Prelude.{ℕ, List, refl};
    ghost use Rattle.std.specs.Coded.{code_by, coded×, coded_list, coded_ℕ};
    ghost use Rattle.std.specs.FinMap as map;
    ghost use Rattle.dg_scope.specs.contracts.scope.Scope as scope;
    ghost use Rattle.dg_scope.specs.declared.scope.Scope.{Scope};
    ghost use Rattle.dg_scope.specs.Scopes.{Names};

    ghost coded = { code_by (Names (List ℕ) × List Scope)
        (coded× (map.code (coded_list coded_ℕ) (coded_list coded_ℕ)) (coded_list scope.the_row.coded))
        (λ v. (v.globals, v.scopes)) (λ p. record { globals = p.0; scopes = p.1 }) (λ _. refl) };

    ghost view = { λ s. record { globals = s.globals; scopes = s.current ∷ reverse s.below.items } };
}

impl Scopes {
    /// No variables, in the first scope.
    pub fn new(alloc: Global) -> Scopes
        ensures { result ≡ no_variables }
    {
        Scopes {
            globals: Table::new(alloc),
            current: Scope::Outermost,
            below: Vec::new(alloc),
        }
    }
}

impl Scopes {
    /// The value of a name, or NoSuchVariable exactly where it isn't set.
    pub fn read(&self, name: &[u8]) -> Result<&[u8], ScopeFault>
        ensures set { IfOk result (λ text. value_of self.now name.now ≡ Some text.now) }
        ensures unset { IfErr result (λ fault. fault ≡ ScopeFault.NoSuchVariable) }
        ensures absent { OnErr result (value_of self.now name.now ≡ None) }
    {
        self.text(name).ok_or(ScopeFault::NoSuchVariable)
    }

    /// The value of a name, to be shared, or NoSuchVariable exactly where it isn't set.
    pub fn value(&self, name: &[u8]) -> Result<&Bytes, ScopeFault>
        ensures set { IfOk result (λ text. value_of self.now name.now ≡ Some text.now) }
        ensures unset { IfErr result (λ fault. fault ≡ ScopeFault.NoSuchVariable) }
        ensures absent { OnErr result (value_of self.now name.now ≡ None) }
    {
        self.held(name).ok_or(ScopeFault::NoSuchVariable)
    }

    /// The value of a global, whatever the name means where evaluation is now, or NoSuchVariable
    /// exactly where that global isn't set.
    pub fn read_global(&self, name: &[u8]) -> Result<&[u8], ScopeFault>
        ensures set { IfOk result (λ text. global_value self.now name.now ≡ Some text.now) }
        ensures unset { IfErr result (λ fault. fault ≡ ScopeFault.NoSuchVariable) }
        ensures absent { OnErr result (global_value self.now name.now ≡ None) }
    {
        self.global_text(name).ok_or(ScopeFault::NoSuchVariable)
    }

    /// The value of a name that is no global's where evaluation is now, as far as one look tells: none for a name that begins
    /// with `::` or ends as an element's does.
    #[tactic(auto, using(crate::proofs::Links::plain_is_no_global))]
    pub fn own(&self, name: &[u8]) -> Option<&Bytes>
        ensures local { IfSome result (λ _. means_global self.now name.now ≡ false) }
        ensures value { IfSome result (λ value. value_of self.now name.now ≡ Some value.now) }
    {
        match &self.current {
            Scope::Local(names) if is_plain(name) => own_value(names, name),
            _ => None,
        }
    }

    /// Whether a name is set.
    pub fn exists(&self, name: &[u8]) -> bool
        ensures { result ≡ is_some (value_of self.now name.now) }
    {
        self.text(name).is_some()
    }

    /// Whether a name means the global where evaluation is now: in the first scope, or if it begins
    /// with `::`, or if it or its base is linked.
    pub fn is_global(&self, name: &[u8]) -> bool
        ensures { result ≡ means_global self.now name.now }
    {
        self.current.means_global(name)
    }

    /// Sets a global, whatever the name means where evaluation is now, to a value of at most
    /// `LONGEST_VALUE` bytes.
    pub fn write_global(
        &mut self,
        alloc: Global,
        name: &[u8],
        value: Bytes,
    ) -> Result<(), ScopeFault>
        ensures ok { OnOk result (self.new ≡ with_global self.old name.now value) }
        ensures too_long { (result ≡ Err ScopeFault.TooLong) ↔ (value_limit < length value) }
        ensures kinds { IfErr result (λ fault. (fault ≡ ScopeFault.TooLong) ⊎ (fault ≡ ScopeFault.Memory)) }
        ensures err { OnErr result (self.new ≡ self.old) }
    {
        let value = held_value(alloc, value)?;
        self.globals.insert(alloc, global_name(name), value)?;
        Ok(())
    }

    /// Sets a name to a value of at most `LONGEST_VALUE` bytes.
    pub fn write(&mut self, alloc: Global, name: &[u8], value: Bytes) -> Result<(), ScopeFault>
        ensures ok { OnOk result (self.new ≡ with_value self.old name.now value) }
        ensures too_long { (result ≡ Err ScopeFault.TooLong) ↔ (value_limit < length value) }
        ensures kinds { IfErr result (λ fault. (fault ≡ ScopeFault.TooLong) ⊎ (fault ≡ ScopeFault.Memory)) }
        ensures err { OnErr result (self.new ≡ self.old) }
    {
        let value = held_value(alloc, value)?;
        self.put(alloc, name, value)?;
        Ok(())
    }

    /// Puts bytes behind the value of a name (Tcl(n), append), of which one that isn't set has none. Where
    /// the variable alone holds its value it grows in place.
    #[tactic(auto, using(crate::proofs::Exchanges::twice, crate::proofs::Exchanges::back, crate::proofs::Exchanges::is_set))]
    pub fn append_text(&mut self, alloc: Global, name: &[u8], more: &[u8]) -> Result<(), ScopeFault>
        ensures ok { OnOk result (self.new ≡ with_value self.old name.now (or_none (value_of self.old name.now) ++ more.now)) }
        ensures too_long { (result ≡ Err ScopeFault.TooLong) ↔ (value_limit < length (or_none (value_of self.old name.now) ++ more.now)) }
        ensures kinds { IfErr result (λ fault. (fault ≡ ScopeFault.TooLong) ⊎ (fault ≡ ScopeFault.Memory)) }
        ensures err { OnErr result (self.new ≡ self.old) }
    {
        let mut value = Bytes::new(alloc);
        let was_set = self.exchange(alloc, name, &mut value);
        if !was_set {
            return self.begin_text(alloc, name, more);
        }
        let grown = add_text(&mut value, more);
        self.exchange(alloc, name, &mut value);
        grown
    }

    /// Puts elements behind those of the list that a name holds (Tcl(n), lappend), of which one that isn't
    /// set has none. Where the variable alone holds its value, with the elements beside it, it grows in
    /// place.
    #[tactic(auto, using(crate::proofs::Exchanges::twice, crate::proofs::Exchanges::back, crate::proofs::Exchanges::is_set))]
    pub fn append_elements(
        &mut self,
        alloc: Global,
        name: &[u8],
        more: &[Bytes],
    ) -> Result<(), ListFault>
        ensures done { OnOk result (LongerList self.old name.now more.now self.new) }
        ensures refused { IfErr result (Refuses (or_none (value_of self.old name.now)) more.now value_limit) }
        ensures err { OnErr result (self.new ≡ self.old) }
    {
        let mut value = Bytes::new(alloc);
        let was_set = self.exchange(alloc, name, &mut value);
        if !was_set {
            return self.begin_list(alloc, name, more);
        }
        let grown = append_elements(alloc, &mut value, more, LONGEST_VALUE);
        self.exchange(alloc, name, &mut value);
        grown
    }

    /// Unsets a name, or answers NoSuchVariable exactly where it isn't set. A link stays.
    pub fn unset(&mut self, name: &[u8]) -> Result<(), ScopeFault>
        ensures set { OnOk result (IsSome (value_of self.old name.now)) }
        ensures ok { OnOk result (self.new ≡ without_value self.old name.now) }
        ensures unset { IfErr result (λ fault. fault ≡ ScopeFault.NoSuchVariable) }
        ensures absent { OnErr result (value_of self.old name.now ≡ None) }
        ensures err { OnErr result (self.new ≡ self.old) }
    {
        if !self.exists(name) {
            return Err(ScopeFault::NoSuchVariable);
        }
        let is_global = self.is_global(name);
        match &mut self.current {
            Scope::Local(names) if !is_global => {
                names.remove(name);
            }
            _ => {
                self.globals.remove(global_name(name));
            }
        }
        Ok(())
    }

    /// Begins a scope with no names, as a proc's (Tcl(n), `proc`), or changes nothing.
    pub fn push(&mut self, alloc: Global) -> Result<(), AllocError>
        ensures ok { OnOk result (self.new ≡ with_scope self.old) }
        ensures err { OnErr result (self.new ≡ self.old) }
    {
        self.begin(Scope::Local(Table::new(alloc)))
    }

    /// Begins a scope in which each name means the global, as for a library that a proc loads, or
    /// changes nothing.
    pub fn push_outermost(&mut self) -> Result<(), AllocError>
        ensures ok { OnOk result (self.new ≡ with_outermost self.old) }
        ensures err { OnErr result (self.new ≡ self.old) }
    {
        self.begin(Scope::Outermost)
    }

    /// Whether a scope stands above the first one.
    pub fn can_pop(&self) -> bool
        ensures { IsTrue result ↔ (1 < length self.now.scopes) }
    {
        !self.below.is_empty()
    }

    /// Ends the scope that was pushed last.
    pub fn pop(&mut self)
        requires { 1 < length self.old.scopes }
        ensures { self.new ≡ without_scope self.old }
    {
        if let Some(scope) = self.below.pop() {
            self.current = scope;
        }
    }

    /// Links a name to the global of that name (Tcl(n), `global`), or changes nothing. A text that
    /// the name has in its scope goes. In the first scope this has no effect.
    pub fn link_global(&mut self, alloc: Global, name: &[u8]) -> Result<(), AllocError>
        ensures ok { OnOk result (self.new ≡ with_link self.old name.now) }
        ensures err { OnErr result (self.new ≡ self.old) }
    {
        match &mut self.current {
            Scope::Outermost => Ok(()),
            Scope::Local(names) => names.insert(alloc, global_name(name), Slot::Link),
        }
    }

    /// Exchanges the value of a name that is no global's where evaluation is now for another, if it is set and as far as one
    /// look tells.
    #[tactic(auto, using(crate::proofs::Links::plain_is_no_global))]
    fn exchange_here(&mut self, alloc: Global, name: &[u8], value: &mut Bytes) -> bool
        ensures exchanged { IsTrue result → (value_of self.old name.now ≡ Some value.new) × (self.new ≡ with_value self.old name.now value.old) }
        ensures absent { IsFalse result → (self.new ≡ self.old) × (value.new ≡ value.old) }
    {
        if !is_plain(name) {
            return false;
        }
        match &mut self.current {
            Scope::Local(names) => exchange_own(alloc, names, name, value),
            Scope::Outermost => false,
        }
    }

    /// Exchanges the value of a name for another, if it is set.
    fn exchange(&mut self, alloc: Global, name: &[u8], value: &mut Bytes) -> bool
        ensures found { result ≡ is_some (value_of self.old name.now) }
        ensures exchanged { IsTrue result → (value_of self.old name.now ≡ Some value.new) × (self.new ≡ with_value self.old name.now value.old) }
        ensures absent { IsFalse result → (self.new ≡ self.old) × (value.new ≡ value.old) }
    {
        if self.exchange_here(alloc, name, value) {
            return true;
        }
        let is_global = self.is_global(name);
        match &mut self.current {
            Scope::Local(names) if !is_global => exchange_own(alloc, names, name, value),
            _ => self.globals.exchange(global_name(name), value),
        }
    }

    /// Sets a name to a value that may be held.
    fn put(&mut self, alloc: Global, name: &[u8], mut value: Bytes) -> Result<(), AllocError>
        ensures ok { OnOk result (self.new ≡ with_value self.old name.now value) }
        ensures err { OnErr result (self.new ≡ self.old) }
    {
        if self.exchange_here(alloc, name, &mut value) {
            return Ok(());
        }
        self.put_anywhere(alloc, name, value)
    }

    /// Sets a name to a value that may be held, wherever it stands.
    fn put_anywhere(&mut self, alloc: Global, name: &[u8], value: Bytes) -> Result<(), AllocError>
        ensures ok { OnOk result (self.new ≡ with_value self.old name.now value) }
        ensures err { OnErr result (self.new ≡ self.old) }
    {
        let is_global = self.is_global(name);
        match &mut self.current {
            Scope::Local(names) if !is_global => names.insert(alloc, name, Slot::Held(value)),
            _ => self.globals.insert(alloc, global_name(name), value),
        }
    }

    /// Sets a name that isn't set to a text.
    fn begin_text(&mut self, alloc: Global, name: &[u8], text: &[u8]) -> Result<(), ScopeFault>
        ensures ok { OnOk result (self.new ≡ with_value self.old name.now text.now) }
        ensures too_long { (result ≡ Err ScopeFault.TooLong) ↔ (value_limit < length text.now) }
        ensures kinds { IfErr result (λ fault. (fault ≡ ScopeFault.TooLong) ⊎ (fault ≡ ScopeFault.Memory)) }
        ensures err { OnErr result (self.new ≡ self.old) }
    {
        if text.len() > LONGEST_VALUE {
            return Err(ScopeFault::TooLong);
        }
        let value = Bytes::from_slice(alloc, text)?;
        self.write(alloc, name, value)
    }

    /// Sets a name that isn't set to a list.
    fn begin_list(
        &mut self,
        alloc: Global,
        name: &[u8],
        elements: &[Bytes],
    ) -> Result<(), ListFault>
        ensures done { OnOk result ((xs : List (List ℕ)) × ((elements_of [] ≡ Ok xs) × (self.new ≡ with_value self.old name.now (text_of_list (xs ++ elements.now))) × (length (text_of_list (xs ++ elements.now)) ≤ value_limit))) }
        ensures refused { IfErr result (Refuses [] elements.now value_limit) }
        ensures err { OnErr result (self.new ≡ self.old) }
    {
        let mut value = Bytes::new(alloc);
        append_elements(alloc, &mut value, elements, LONGEST_VALUE)?;
        match self.write(alloc, name, value) {
            Ok(()) => Ok(()),
            Err(_) => Err(ListFault::Memory),
        }
    }

    /// The text of a name, if it is set.
    fn text(&self, name: &[u8]) -> Option<&[u8]>
        ensures { option_copied result ≡ value_of self.now name.now }
    {
        match self.held(name) {
            Some(value) => Some(value.as_slice()),
            None => None,
        }
    }

    /// The value of a name, if it is set.
    fn held(&self, name: &[u8]) -> Option<&Bytes>
        ensures { option_copied result ≡ value_of self.now name.now }
    {
        match self.own(name) {
            Some(value) => Some(value),
            None => self.held_anywhere(name),
        }
    }

    /// The value of a name, if it is set, wherever it stands.
    fn held_anywhere(&self, name: &[u8]) -> Option<&Bytes>
        ensures { option_copied result ≡ value_of self.now name.now }
    {
        match &self.current {
            Scope::Local(names) if !self.is_global(name) => own_value(names, name),
            _ => self.globals.get(global_name(name)),
        }
    }

    /// The text of a global, if it is set.
    fn global_text(&self, name: &[u8]) -> Option<&[u8]>
        ensures { option_copied result ≡ global_value self.now name.now }
    {
        match self.globals.get(global_name(name)) {
            Some(text) => Some(text.as_slice()),
            None => None,
        }
    }

    /// Begins a scope, or changes nothing.
    fn begin(&mut self, scope: Scope) -> Result<(), AllocError>
        ensures ok { OnOk result (self.new ≡ record self.old { scopes = scope ∷ self.old.scopes }) }
        ensures err { OnErr result (self.new ≡ self.old) }
    {
        let last = std::mem::replace(&mut self.current, scope);
        match self.below.push(last) {
            Ok(()) => Ok(()),
            Err(refused) => {
                self.current = refused.value;
                Err(AllocError)
            }
        }
    }
}

/// A value as a variable holds it, if it has at most `LONGEST_VALUE` bytes.
fn held_value(alloc: Global, mut value: Bytes) -> Result<Bytes, ScopeFault>
    ensures ok { IfOk result (λ held. held ≡ value) }
    ensures too_long { (result ≡ Err ScopeFault.TooLong) ↔ (value_limit < length value) }
    ensures kinds { IfErr result (λ fault. (fault ≡ ScopeFault.TooLong) ⊎ (fault ≡ ScopeFault.Memory)) }
{
    if is_too_long(&value) {
        return Err(ScopeFault::TooLong);
    }
    value.keep(alloc)?;
    Ok(value)
}

/// Whether a value has more bytes than a variable may hold.
fn is_too_long(value: &Bytes) -> bool
    ensures { IsTrue result ↔ (value_limit < length value.now) }
{
    value.len() > LONGEST_VALUE
}

/// Puts bytes behind a value, which has at most `LONGEST_VALUE` then, or changes nothing.
fn add_text(value: &mut Bytes, more: &[u8]) -> Result<(), ScopeFault>
    ensures ok { OnOk result (value.new ≡ value.old ++ more.now) }
    ensures too_long { (result ≡ Err ScopeFault.TooLong) ↔ (value_limit < length (value.old ++ more.now)) }
    ensures kinds { IfErr result (λ fault. (fault ≡ ScopeFault.TooLong) ⊎ (fault ≡ ScopeFault.Memory)) }
    ensures err { OnErr result (value.new ≡ value.old) }
{
    match value.len().checked_add(more.len()) {
        Some(count) if count <= LONGEST_VALUE => {
            value.extend(more)?;
            Ok(())
        }
        _ => Err(ScopeFault::TooLong),
    }
}
